//! Laws of cores that answer lines, each the contract of a function that does nothing.

ghost use Rattle.zj_session.specs.Laws.{AnswersAreRight, FitIsRun, FitsFurther, LogFitsFurther, LogsAreRight, RoundRecovers};

use zj_closure::laws::recovers_cut;
use zj_dev::Disk;
use zj_history::laws::{front_is_consistent, none_below_first};
use zj_inode::laws::{cut_is_run, history_is_run};
use zj_tx::laws::{frozen_stays, sealed_is_frozen};

/// Whatever a line is answered, the answer is right, and the cores go on to serve calls.
pub fn answers_are_right<D: Disk>()
    ensures { AnswersAreRight D }
{}

/// Lines and answers that fit a history go on to fit with one more.
pub fn fits_further()
    ensures { FitsFurther }
{}

/// Replies that fit a history are the plain service's in turn.
pub fn fit_is_run()
    ensures { FitIsRun }
{
    history_is_run();
}

/// Whatever a line is answered, the journals go on to keep what their cores sealed, and what the answer says of that is right.
pub fn logs_are_right<D: Disk>()
    ensures { LogsAreRight D }
{
    frozen_stays();
    sealed_is_frozen();
}

/// Lines and answers that fit the transactions of the cores go on to fit them with one more.
pub fn log_fits_further()
    ensures { LogFitsFurther }
{}

/// Each crash within a round recovers to a cut of the history that the cores have logged.
pub fn round_recovers<D: Disk>()
    ensures { RoundRecovers D }
{
    recovers_cut();
    cut_is_run();
    front_is_consistent();
    none_below_first();
}
