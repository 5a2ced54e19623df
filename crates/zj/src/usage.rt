//! What `--help` and `--version` tell.

const VERSION: &str = "zj 0.1.0\n";

const HELP: &str = "zj: a journalling file service, proved

Usage:
  zj [-C FOLDER].. COMMAND
                  works in that folder; of several, each is sought from the one before
  zj make [BLOCKS NODES CORES AREA]
                  makes an image in the folder
  zj play         runs the script on standard input on that image, and prints the answers
  zj check        prints what the journals of that image hold, and what is recovered
  zj dump         prints the tree that is recovered of that image
  zj --help       prints this text
  zj --version    prints the version

make
An image is the file home and the journals j0, j1 and on, one for each core.
  BLOCKS  how many blocks of 512 bytes home has: 16 to 4096
  NODES   how many files and directories it may hold, the root among them: 8 to
          1024, a multiple of 8
  CORES   how many cores it has: 1 to 8
  AREA    the bytes of each journal: up to 16777216, and at least two longest
          records, 50736 and 16 more for each core
make alone is make 4096 1024 4 1048576. A file that is there already is not touched,
and ends it with status 3: image exists, and which.

play
A script has one call a line, each with the core that makes it, here core 0. A line
without a byte, or one that begins with #, counts and says nothing:
  0 mkdir PATH        makes an empty directory
  0 create PATH       makes an empty file
  0 unlink PATH       removes a file
  0 rmdir PATH        removes a directory that has no entries
  0 rename PATH PATH  gives what stands at the first path the second one
  0 list PATH         prints the names in a directory, ascending
  0 stat PATH         prints what stands at a path, and how large it is
  0 write PATH NUMBER TEXT
                      puts bytes into a file from a place on, at its end at the latest
  0 read PATH NUMBER NUMBER
                      prints the bytes of a file from a place on, at most so many
  0 truncate PATH NUMBER
                      leaves so many first bytes of a file
A path is / or names behind slashes, as /mail/new: at most 16 names, each of 1 to
26 of the letters a to z and A to Z, digits, and . _ - (but not . or .. alone).
A TEXT is the bytes from ! to ~ other than %, and % with two digits of base 16 in
lower case for each other byte, as a%20b.
A script has at most 65,536 lines of at most 20,000 bytes, and 16,777,216 bytes.

A call can also be made step by step, by a handle, of which a core has one at most:
  0 begin CALL        opens a handle for a call; answered by begun
  0 take              takes the next block that the call needs, first that of the
                      root, 8 in an image that make alone made; answered by took
                      BLOCK, or by ready where the call needs no more blocks
  0 stop              takes what is needed still, makes the call, and gives the blocks
                      back; answered like a call
  0 drop              gives the blocks back with nothing done; answered by dropped
A block that a handle took is no other core's. A call, take or stop that needs one
is answered by busy BLOCK CORE, the block and the core that has it: nothing was done,
and a later line may try again. An act that doesn't suit its core is answered by
order, and does nothing: a call, begin or commit where a handle is open, or take,
stop or drop where none is. What is open when the script ends is dropped.

The calls of a core gather in its running transaction, also those that read or are
refused, until it is committed:
  0 commit            writes the running transaction to the core's own journal;
                      answered by committed NUMBER, or by empty where it has no call
A call or stop is answered by txfull HAVE MORE where the transaction would have more
than 48 blocks: commit first. A call or begin is answered by full NEED FREE where the
transaction is empty and a longest record has no room in the journal. Where the file
of a journal fails, the commit is answered by fault and its name, the status is 4 at
the end, and each call, begin or commit of that core is answered by failed CORE from
then on; the other cores go on.
The language has these acts besides, which are not built yet and refused: fsync PATH,
look, sync, and checkpoint alone.

Where a line is refused no call runs, and standard error tells the place, as
  zj: script line 2 column 3 kind 2
and then the line, a mark under the column, and what was due there.

play starts from the tree that home holds, and prints one line for each act: LINE CORE
and its answer, that of a call TICKET REPLY: its place among the calls that were made,
from 0, and what it found. It writes the journals alone, and only where a line commits:
what was not committed is gone when it ends. Whatever a crash leaves of the files, what
is recovered is a tree that the calls could have made: check and dump tell it.
An image whose journals hold a transaction is refused as not built yet, with status 3:
it can be checked and dumped, and not played again.

Example:
  zj make
  printf '0 mkdir /a\\n0 list /\\n' | zj play
prints
  1 0 0 ok
  2 0 1 names a
and on two cores whose handles meet
  printf '0 begin mkdir /a\\n0 take\\n1 mkdir /b\\n0 stop\\n1 mkdir /b\\n' | zj play
prints
  1 0 begun
  2 0 took 8
  3 1 busy 8 0
  4 0 0 ok
  5 1 1 ok
and on two cores whose transactions follow each other
  printf '0 mkdir /a\\n1 mkdir /b\\n1 commit\\n0 commit\\n' | zj play
prints
  1 0 0 ok
  2 1 1 ok
  3 1 committed 0
  4 0 committed 0
and zj check then tells that both are kept. Without the last line none is: core 1's
transaction follows core 0's, which no journal holds.

check
It reads the image and changes nothing. It prints one line for each journal: where
its tail begins, how many transactions it holds and how many of them a recovery
keeps; and one for the tree that is recovered: how many files and directories it
has, the root among them, and how many blocks these take up, as
  j0 from 0 found 1 kept 1
  nodes 1 blocks 0
Where what is recovered is no tree, it ends with status 3: image notree, and why.

dump
It reads the image as check does. It prints one line for each file and directory that
is recovered: the path, and dir and how many entries it has, or file, how many bytes
it has, and these as a TEXT, as
  / dir 1
  /f file 2 hi

Status: 0 done; and with a text on standard error: 1 the words are no command,
2 the input is refused, 3 the folder or a device of the image is absent, or the device
exists already, holds something else or is not built yet, 4 a device failed, 5 out of memory, 6 reading
standard input failed, 7 writing failed.
";

/// The text that the words ask for, or None where they are for the top call.
pub fn told(words: &[String]) -> Option<&'static str> {
    match words {
        [word] => match word.as_str() {
            "--help" | "-h" => Some(HELP),
            "--version" | "-V" => Some(VERSION),
            _ => None,
        },
        _ => None,
    }
}
