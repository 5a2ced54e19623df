//! Scripts and schedules read, and lines and answers spelled: texts with a case a line.

use super::*;
use std::alloc::Global;
use std::process::Abort;
use zj_dev::Device;
use zj_tree::{Bytes, Name, Names, Refusal, Reply};

/// How many lines a schedule has, or where it is refused.
fn schedule_told(rt: &impl Abort, alloc: Global, cores: u32, input: &[u8]) -> String {
    match read_schedule(alloc, cores, input) {
        Ok(schedule) => {
            let count = schedule.len();
            format!(in alloc; "{count} lines").expect(rt, "memory")
        }
        Err(fault) => format!(in alloc; "{fault}").expect(rt, "memory"),
    }
}

/// The same of a script.
fn script_told(rt: &impl Abort, alloc: Global, cores: u32, input: &[u8]) -> String {
    match read_script(alloc, cores, input) {
        Ok(script) => {
            let count = script.len();
            format!(in alloc; "{count} lines").expect(rt, "memory")
        }
        Err(fault) => format!(in alloc; "{fault}").expect(rt, "memory"),
    }
}

/// The input that a text stands for: `|` for a line feed, `^` for a carriage return, and `_` for a space.
fn input(rt: &impl Abort, alloc: Global, text: &str) -> Vec<u8> {
    let mut input = Vec::new(alloc);
    for byte in text.bytes() {
        let byte = match byte {
            b'|' => b'\n',
            b'^' => b'\r',
            b'_' => b' ',
            _ => byte,
        };
        input.push(byte).expect(rt, "memory");
    }
    input
}

/// A column of a line.
fn column<'a>(rt: &impl Abort, line: &'a str, place: usize) -> &'a str {
    line.split(": ").nth(place).expect(rt, line)
}

/// How many cores there are, what is told of an input, and the input.
#[test]
fn reads_calls(rt: HostRuntime) {
    let lines = "0: line 1 column 1 kind 1: 0 list /
1: 0 lines: |
1: 1 lines: #|# 0 list|0 list /
1: 2 lines: 0 mkdir /a|0 list /|
1: 6 lines: 0 create /a|0 stat /a|0 rename /a /b|0 unlink /b|0 rmdir /c|0 fsync /|
1: 3 lines: 0 write /a 0 a%20b%ff|0 read /a 1 4294967295|0 truncate /a 2|
11: 2 lines: 10 list /|0 list /|
10: line 1 column 1 kind 1: 10 list /|
1: line 1 column 1 kind 1: 1 list /
1: line 1 column 1 kind 1: 00 list /|
1: line 1 column 1 kind 1: +0 list /|
1: line 1 column 1 kind 1: _0 list /|
1: line 1 column 2 kind 2: 0
1: line 1 column 3 kind 2: 0_
1: line 1 column 3 kind 2: 0 _list /|
1: line 1 column 3 kind 2: 0 lists /|
1: line 1 column 7 kind 3: 0 list
1: line 1 column 7 kind 3: 0 list|0 list /
1: line 1 column 9 kind 3: 0 mkdir a|
1: line 1 column 8 kind 3: 0 list /^|
1: line 1 column 10 kind 2: 0 list / /|
1: line 1 column 10 kind 2: 0 list /_|
1: line 1 column 12 kind 3: 0 rename /a|
1: line 1 column 13 kind 3: 0 rename /a b|
1: line 1 column 13 kind 5: 0 write /a 0|
1: line 1 column 14 kind 5: 0 write /a 0_|
1: line 1 column 12 kind 4: 0 write /a 00 b|
1: line 1 column 14 kind 5: 0 write /f 0 %61
1: line 1 column 14 kind 5: 0 write /a 0 %2F%0A|
1: line 1 column 14 kind 5: 0 write /a 0 a%0A|
1: line 1 column 16 kind 2: 0 write /a 0 a b|
1: line 1 column 11 kind 4: 0 read /f 01 2
1: line 1 column 13 kind 4: 0 read /a 1 4294967296|
1: line 1 column 14 kind 4: 0 truncate /a|
1: line 4 column 8 kind 3: #||0 list /|0 list a|0 x
1: 1 lines: 0 mkdir /a/b/c/d/e/f/g/h/i/j/k/l/m/n/o/p
1: line 1 column 9 kind 3: 0 mkdir /a/b/c/d/e/f/g/h/i/j/k/l/m/n/o/p/q";
    assert!(rt; lines.lines().count() == 37);
    for line in lines.lines() {
        reads_call(&rt, rt.alloc(), line);
    }
}

/// The same is told of an input as a schedule and as a script.
fn is_told(rt: &impl Abort, alloc: Global, cores: u32, input: &[u8], wanted: &str) {
    let schedule = schedule_told(rt, alloc, cores, input);
    assert_eq!(rt; schedule.as_str(), wanted, "{input:?}");
    let script = script_told(rt, alloc, cores, input);
    assert_eq!(rt; script.as_str(), wanted, "{input:?}");
}

fn reads_call(rt: &impl Abort, alloc: Global, line: &str) {
    let cores = column(rt, line, 0).parse::<u32>().expect(rt, line);
    let input = input(rt, alloc, column(rt, line, 2));
    is_told(rt, alloc, cores, &input, column(rt, line, 1));
}

#[test]
fn reads_nothing_and_no_text(rt: HostRuntime) {
    is_told(&rt, rt.alloc(), 1, b"", "0 lines");
    is_told(&rt, rt.alloc(), 1, &[0xFF, 0xFE], "line 1 column 1 kind 1");
}

/// What is told of an input as a schedule and as a script of two cores, and the input.
#[test]
fn reads_acts(rt: HostRuntime) {
    let lines = "1 lines: line 1 column 3 kind 2: 0 take
5 lines: line 1 column 3 kind 2: 0 look|0 stop|1 drop|1 commit|1 sync|
1 lines: line 1 column 1 kind 1: checkpoint
line 1 column 12 kind 2: line 1 column 1 kind 1: checkpoint x
line 1 column 3 kind 2: line 1 column 3 kind 2: 0 checkpoint
1 lines: line 1 column 3 kind 2: 1 begin mkdir /a
line 1 column 9 kind 2: line 1 column 3 kind 2: 0 begin fsync /
line 1 column 8 kind 2: line 1 column 3 kind 2: 0 begin
line 1 column 9 kind 2: line 1 column 3 kind 2: 0 begin take
line 1 column 20 kind 5: line 1 column 3 kind 2: 0 begin write /a 0_
line 1 column 8 kind 2: line 1 column 3 kind 2: 0 take_
line 2 column 8 kind 2: line 2 column 3 kind 2: 0 list /|0 stop x";
    assert!(rt; lines.lines().count() == 12);
    for line in lines.lines() {
        reads_act(&rt, rt.alloc(), line);
    }
}

fn reads_act(rt: &impl Abort, alloc: Global, line: &str) {
    let input = input(rt, alloc, column(rt, line, 2));
    let schedule = schedule_told(rt, alloc, 2, &input);
    assert_eq!(rt; schedule.as_str(), column(rt, line, 0), "{line}");
    let script = script_told(rt, alloc, 2, &input);
    assert_eq!(rt; script.as_str(), column(rt, line, 1), "{line}");
}

/// So many copies of a text.
fn repeated(rt: &impl Abort, alloc: Global, text: &[u8], count: u32) -> Vec<u8> {
    let mut out = Vec::new(alloc);
    for _ in 0..count {
        out.extend_from_slice(text).expect(rt, "memory");
    }
    out
}

/// This is told of a schedule of one core.
fn schedule_is(rt: &impl Abort, alloc: Global, input: &[u8], wanted: &str) {
    let told = schedule_told(rt, alloc, 1, input);
    assert_eq!(rt; told.as_str(), wanted);
}

#[test]
fn keeps_limits(rt: HostRuntime) {
    let mut line = repeated(&rt, rt.alloc(), b"#", 20_000);
    schedule_is(&rt, rt.alloc(), &line, "0 lines");
    line.push(b'a').expect(&rt, "memory");
    schedule_is(&rt, rt.alloc(), &line, "line 1 column 20001 kind 6");
    let words = repeated(&rt, rt.alloc(), b"a", 20_001);
    schedule_is(&rt, rt.alloc(), &words, "line 1 column 20001 kind 6");
    let mut lines = repeated(&rt, rt.alloc(), b"\n", 65_536);
    schedule_is(&rt, rt.alloc(), &lines, "0 lines");
    lines.push(b'\n').expect(&rt, "memory");
    schedule_is(&rt, rt.alloc(), &lines, "line 65537 column 1 kind 6");
}

/// As many bytes as an input may have, in lines without an act.
fn longest(rt: &impl Abort, alloc: Global) -> Vec<u8> {
    let mut line = repeated(rt, alloc, b"#", 1_023);
    line.push(b'\n').expect(rt, "memory");
    repeated(rt, alloc, &line, 16_384)
}

#[test]
fn keeps_limit_of_bytes(rt: HostRuntime) {
    let mut input = longest(&rt, rt.alloc());
    schedule_is(&rt, rt.alloc(), &input, "0 lines");
    input.push(b'\n').expect(&rt, "memory");
    schedule_is(&rt, rt.alloc(), &input, "line 16385 column 1 kind 6");
}

#[test]
fn reads_no_words_past_limit(rt: HostRuntime) {
    let mut input = longest(&rt, rt.alloc());
    input.truncate(16_777_208);
    input.extend_from_slice(b"\n0 list x").expect(&rt, "memory");
    schedule_is(&rt, rt.alloc(), &input, "line 16385 column 8 kind 6");
    input.truncate(16_777_216);
    schedule_is(&rt, rt.alloc(), &input, "line 16385 column 8 kind 3");
}

/// All lines that a schedule for ten cores spells are written again as they are. Tells how many there are.
fn rewritten(rt: &impl Abort, alloc: Global, text: &str) -> usize {
    let schedule = read_schedule(alloc, 10, text.as_bytes()).expect(rt, text);
    let mut out = Bytes::new(alloc);
    for line in schedule.as_slice() {
        write_line(line, &mut out).expect(rt, "memory");
    }
    assert_eq!(rt; out.as_slice(), text.as_bytes(), "{text}");
    schedule.len()
}

#[test]
fn writes_lines(rt: HostRuntime) {
    let lines = "0 mkdir /a
1 create /a/b
2 write /a/b 0 a%20b%25%ff
3 read /a/b 4294967295 10
4 truncate /a/b 7
5 unlink /a/b
6 rmdir /a
7 rename /a /b
8 list /
9 stat /.a-_Z9
0 fsync /
0 begin rename /a /b
0 take
0 look
0 stop
0 drop
0 commit
0 sync
checkpoint
";
    assert!(rt; rewritten(&rt, rt.alloc(), lines) == 19);
}

/// The number of a line, and its core.
fn place_of(line: Option<&Line>) -> Option<(u32, Option<u32>)> {
    line.map(|line| (line.number, line.core))
}

#[test]
fn numbers_lines(rt: HostRuntime) {
    let text = b"#\n\n1 list /\n#\n0 fsync /";
    let script = read_script(rt.alloc(), 2, text).expect(&rt, "a script");
    assert!(rt; place_of(script.at(0)) == Some((3, Some(1))));
    assert!(rt; place_of(script.at(1)) == Some((5, Some(0))));
    assert!(rt; place_of(script.at(2)) == None);
    let text = b"\ncheckpoint\n1 take";
    let schedule = read_schedule(rt.alloc(), 2, text).expect(&rt, "a schedule");
    assert!(rt; place_of(schedule.at(0)) == Some((2, None)));
    assert!(rt; place_of(schedule.at(1)) == Some((3, Some(1))));
    assert!(rt; place_of(schedule.at(2)) == None);
}

/// A kind has this number, and what is due there has this word in it.
fn kind_is(rt: &impl Abort, kind: Kind, number: u32, word: &str) {
    assert!(rt; kind.number() == number);
    assert!(rt; Kind::from_number(number) == Some(kind));
    assert!(rt; kind.due().contains(word), "{word}");
}

#[test]
fn tells_kinds(rt: HostRuntime) {
    kind_is(&rt, Kind::BadCore, 1, "core");
    kind_is(&rt, Kind::BadCall, 2, "call");
    kind_is(&rt, Kind::BadPath, 3, "path");
    kind_is(&rt, Kind::BadNumber, 4, "number");
    kind_is(&rt, Kind::BadText, 5, "bytes");
    kind_is(&rt, Kind::TooLong, 6, "end");
    assert!(rt; Kind::from_number(0) == None);
    assert!(rt; Kind::from_number(7) == None);
}

/// An answer of a core is spelled so, behind the number of its line.
fn is_spelled(rt: &impl Abort, alloc: Global, core: Option<u32>, form: Form, wanted: &str) {
    let answer = Answer {
        line: 4_294_967_295,
        core,
        form,
    };
    let mut out = Bytes::new(alloc);
    write_answer(&answer, &mut out).expect(rt, "memory");
    let line = format!(in alloc; "4294967295 {wanted}\n").expect(rt, "memory");
    assert_eq!(rt; out.as_slice(), line.as_bytes(), "{wanted}");
}

/// A reply is spelled so, behind the core and the ticket.
fn reply_is(rt: &impl Abort, alloc: Global, reply: Reply, wanted: &str) {
    let ticket = 18_446_744_073_709_551_615;
    let wanted = format!(in alloc; "10 18446744073709551615 {wanted}").expect(rt, "memory");
    is_spelled(
        rt,
        alloc,
        Some(10),
        Form::Drew { ticket, reply },
        wanted.as_str(),
    );
}

fn data_is(rt: &impl Abort, alloc: Global, bytes: &[u8], wanted: &str) {
    let bytes = Bytes::from_slice(alloc, bytes).expect(rt, "memory");
    reply_is(rt, alloc, Reply::Data(bytes), wanted);
}

/// The names of a list are spelled as they are here.
fn names_are(rt: &impl Abort, alloc: Global, wanted: &str) {
    let mut names = Names::new(alloc);
    for word in wanted.split(' ').skip(1) {
        let name = Name::new(word.as_bytes()).expect(rt, word);
        names.push(name).expect(rt, "memory");
    }
    reply_is(rt, alloc, Reply::Listed(names), wanted);
}

#[test]
fn spells_replies(rt: HostRuntime) {
    reply_is(&rt, rt.alloc(), Reply::Done, "ok");
    reply_is(&rt, rt.alloc(), Reply::Dir { entries: 3 }, "dir 3");
    reply_is(&rt, rt.alloc(), Reply::File { size: 700 }, "file 700");
    data_is(&rt, rt.alloc(), b"", "data");
    data_is(&rt, rt.alloc(), &[b'a', 37, 10, 255], "data a%25%0a%ff");
    data_is(&rt, rt.alloc(), b" !~\x7f\x00", "data %20!~%7f%00");
    names_are(&rt, rt.alloc(), "names");
    names_are(&rt, rt.alloc(), "names B a.b a_c");
}

/// A refusal is spelled so, behind the core and the ticket.
fn refusal_is(rt: &impl Abort, alloc: Global, refusal: Refusal, wanted: &str) {
    let (ticket, reply) = (0, Reply::Refused(refusal));
    is_spelled(rt, alloc, Some(10), Form::Drew { ticket, reply }, wanted);
}

#[test]
fn spells_refusals(rt: HostRuntime) {
    let alloc = rt.alloc();
    refusal_is(&rt, alloc, Refusal::NotFound, "10 0 notfound");
    refusal_is(&rt, alloc, Refusal::NotDir, "10 0 notdir");
    refusal_is(&rt, alloc, Refusal::IsDir, "10 0 isdir");
    refusal_is(&rt, alloc, Refusal::Exists, "10 0 exists");
    refusal_is(&rt, alloc, Refusal::NotEmpty, "10 0 notempty");
    refusal_is(&rt, alloc, Refusal::Inside, "10 0 inside");
    refusal_is(&rt, alloc, Refusal::TooBig, "10 0 toobig");
    refusal_is(&rt, alloc, Refusal::NoNodes, "10 0 nonodes");
    refusal_is(&rt, alloc, Refusal::NoSpace, "10 0 nospace");
    refusal_is(&rt, alloc, Refusal::DirFull, "10 0 dirfull");
    refusal_is(&rt, alloc, Refusal::PastEnd, "10 0 pastend");
}

/// A receipt of so many cores, with bounds 3, 4 and 5.
fn receipt(cores: u32) -> SyncForm {
    let mut covers = [0; 64];
    covers[0] = 3;
    covers[1] = 4;
    covers[2] = 5;
    SyncForm::Receipt { cores, covers }
}

/// What came of waiting for a receipt is spelled so, behind its core.
fn sync_is(rt: &impl Abort, alloc: Global, sync: SyncForm, wanted: &str) {
    is_spelled(rt, alloc, Some(0), Form::Sync(sync), wanted);
}

#[test]
fn spells_receipts(rt: HostRuntime) {
    let alloc = rt.alloc();
    sync_is(&rt, alloc, receipt(1), "0 receipt 3");
    sync_is(&rt, alloc, receipt(4), "0 receipt 3 4 5 0");
    let (ticket, sync) = (7, receipt(2));
    let synced = Form::Synced { ticket, sync };
    is_spelled(&rt, alloc, Some(0), synced, "0 7 ok receipt 3 4");
    let (core, need, stable) = (2, 9, 8);
    sync_is(
        &rt,
        alloc,
        SyncForm::Wait { core, need, stable },
        "0 wait 2 9 8",
    );
    sync_is(&rt, alloc, SyncForm::Failed { core: 3 }, "0 failed 3");
    let device = Device::Journal(11);
    sync_is(&rt, alloc, SyncForm::Fault { device }, "0 fault j11");
}

/// An answer of no core is spelled so.
fn form_is(rt: &impl Abort, alloc: Global, form: Form, wanted: &str) {
    is_spelled(rt, alloc, None, form, wanted);
}

#[test]
fn spells_forms(rt: HostRuntime) {
    let alloc = rt.alloc();
    form_is(&rt, alloc, Form::Begun, "- begun");
    form_is(&rt, alloc, Form::Took { block: 5 }, "- took 5");
    form_is(&rt, alloc, Form::Saw { block: 6 }, "- saw 6");
    form_is(&rt, alloc, Form::Ready, "- ready");
    form_is(&rt, alloc, Form::Dropped, "- dropped");
    form_is(&rt, alloc, Form::Committed { number: 12 }, "- committed 12");
    form_is(&rt, alloc, Form::Empty, "- empty");
    form_is(&rt, alloc, Form::Open, "- open");
    form_is(&rt, alloc, Form::Checkpointed, "- checkpointed");
    let device = Device::Home;
    form_is(&rt, alloc, Form::Damaged { device }, "- damaged home");
    form_is(&rt, alloc, Form::Order, "- order");
}

#[test]
fn spells_forms_with_numbers(rt: HostRuntime) {
    let alloc = rt.alloc();
    let (block, holder) = (2, 1);
    form_is(&rt, alloc, Form::Busy { block, holder }, "- busy 2 1");
    form_is(
        &rt,
        alloc,
        Form::TxFull { have: 47, more: 2 },
        "- txfull 47 2",
    );
    let (need, free) = (25_377, 9);
    form_is(&rt, alloc, Form::Full { need, free }, "- full 25377 9");
    let (block, noted, found) = (3, 1, 2);
    form_is(
        &rt,
        alloc,
        Form::Again {
            block,
            noted,
            found,
        },
        "- again 3 1 2",
    );
}
