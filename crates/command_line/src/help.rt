//! What the help says beside the options: tests compare it with the lines that are read, the answers that are
//! printed, and the faults that there are.

/// The faults, their names, and what a status means.
pub const FAULTS: &str = "Faults, as `refused N` and `btidx: refused N NAME` name them:
   1  NoMemory        memory was refused
   2  Io              a call of the device, of a file or of a stream failed
   3  Stopped         the log failed before, or a counter is at its end: open again
   4  Blocked         another session holds a latch of the page, or a pin that is in the way: step again
   5  Exists          the entry was there
   6  KeyTooLong      the key has more than 64 bytes
   7  BadRow          the row's offset is 0, or its block 4294967295
   8  IndexFull       no block is unused, and none can be used again
   9  LogFull         the changed pages don't fit into the log: make a checkpoint
  10  NoFrame         each page that is held in memory is pinned
  11  VacuumRunning   a bulk delete or a cleanup runs, and another is begun
  12  NoSession       there is no such session, or it has no call that fits
  13  SessionBusy     the session has a call
  14  BadSuper        the file doesn't begin as an index does, or is shorter than it says
  15  BadVersion      the file has a layout other than 1 or 2
  16  LogDamaged      an open group of the log breaks its grammar
  17  PageDamaged     a page isn't what its place demands
  18  BadLimits       a size is out of its range
  19  TooTall         the root would be split on level 31
  20  DeviceTooSmall  the device is too short for an index of these sizes
  21  KeyExists       an entry with this key and that other row is there
Faults 4 and 17 name the block of the page too, and 21, which a unique index alone has, the row.

Status: 0 where all was done, 1 where a check found damage, 2 where something was refused.
A refused line of a script is an answer, and doesn't change the status.";

/// The lines of a script, their answers, and an example.
pub const SCRIPT: &str = "Lines of a script:      What they do:                            Answers:
  insert S KEY ROW      begin an insert in session S             begun
  scan S FROM BELOW     begin a scan in session S                begun
  bulk S ROW ..         begin a bulk delete of these rows        begun
  cleanup S             begin a cleanup: empty leaves go         begun
  step S                one step of the session's call           going, added N, ready N, done,
                                                                 finished ..
  run S                 steps, until one isn't `going`           added N, ready N, done,
                                                                 finished ..
  next S                take an entry that a scan has ready      entry KEY ROW, none
  end S                 give the session's call up               ended
  put S KEY ROW         an insert, run to its end                added N
  list S FROM BELOW     a scan, run to its end                   entry KEY ROW .., done N
  force                 make each action so far durable          forced N
  flush                 write the page that waits longest        flushed B, clean
  checkpoint            force, and write pages to their places   checkpointed N
  fail N                the Nth device call from now fails       set
  stop N                that one and each later one fail         set
  crash keep|drop|tear  a crash, and the index opened again      opened
  dump                  each page, with its items                the pages
  # WORDS               nothing; an empty line does nothing too

S: a session, counted from 0.  N: a number without sign or zeros in front; `fail` and `stop` count from 1.
KEY: 0 to 64 bytes as lower-case hex, `-` for none.  ROW: (BLOCK,OFFSET); `bulk` takes any number of them.
FROM, BELOW: a key, or `*` for an open end; what is below BELOW is given.
A crash keeps all that wasn't synced, drops it, or tears it: half of each write stays.

Answers:                What they mean:
  begun                 the session has a call now
  going                 the call isn't at its end
  added N               the entry is added, by the Nth action, and the insert has ended
  added N unfinished M  so is this one; fault M kept a split from being finished: a later insert finishes it
  ready N               the scan has N entries, which `next` takes
  done                  the scan has given all, and has ended
  finished pages=P tuples=T removed=R new=W deleted=D free=F
                        the bulk delete or cleanup has ended. It left T entries, removed R, and deleted W pages.
                        P blocks are in use, D pages are deleted, and F of these can be used again
  entry KEY ROW         an entry
  none                  no entry is ready
  ended                 the call is given up
  done N                the list is at its end: N entries
  forced N              the first N actions are durable
  flushed B             the page of block B is written to its place
  clean                 no page waits to be written
  checkpointed N        the first N actions are durable, and all pages are written to their places
  set                   the device will fail so
  opened                the index is open again, with what the crash left; actions are counted anew
  refused N             fault N, which `btidx --help` explains
  refused N B           fault N, 4 or 17, at the page of block B
  refused 21 ROW        an entry with this key and that other row is there

Example: `btidx play < FILE` prints what stands behind each line of this file:
  put 0 61 (0,1)        added 1
  put 0 62 (0,2)        added 2
  force                 forced 2
  put 0 63 (0,3)        added 3
  crash drop            opened
  list 0 * *            entry 61 (0,1)
                        entry 62 (0,2)
                        done 2

A crash after which the index can't be opened is refused, and ends the script with status 2. Any other line ends
it so too, and is told by `btidx: line N: not an event`; the lines before it have been run.";

/// What a check answers.
pub const REPORT: &str = "Prints, with status 0, where no damage is found:
  ok levels=L pages=P entries=E halfdead=H deleted=D unfinished=U
L: levels.  P: blocks in use.  E: entries.  H: half-dead pages.  D: deleted ones.  U: ones whose split is unfinished.
Else the first damage, with status 1:
  damage N block B";

/// What a copy is, and what it prints.
pub const COPIES: &str =
    "A size that isn't given is that of the index at PATH; a copy of a unique index is unique too. The leaves of
the copy are nearly full, some 48 entries a page of 50, so it is the way to room for an index that answers IndexFull.
The file NEW is there only once the copy is whole. The index at PATH stays, and nobody may have it open meanwhile.

Prints the number of entries:
  copied N
With --unique two entries of one key are refused with 21, and the row of one of them.";

/// The lines of a job file, and what is printed of a run.
pub const JOBS: &str =
    "Lines of a job file:     What they do:                                     Ends:
  insert KEY ROW         insert the entry                                  added N, added N unfinished M
  scan FROM BELOW ROOM   give the entries of the range, ROOM at most       scanned N finished, scanned N cut
  bulk ROW ..            remove the entries of these rows                  finished ..
  cleanup                delete empty leaves                               finished ..
  commit                 make each action so far durable                   committed N
  checkpoint             that, and write changed pages to their places     checkpointed N

ROOM: 1 to 1048576.  The other words, and the ends, are those of `btidx play --help`; each job may end refused too.
The jobs are counted from 0; each worker takes the next one that is left, as soon as it has done one.

Prints, by the jobs' numbers, the worker that did it, how many actions there were as it began and as it ended, and
its end; behind a scan the entries that it gave. A scan is cut where more waits than it has room for.
  job J worker W from I to K END
Then how many jobs each worker did, how many were done, and the checkpoint behind them:
  worker W calls N
  history N
  checkpointed N
A job that is refused doesn't change the status. A line that is no job is told by `btidx: line N: not a job`,
lines counted from 1, and nothing is run.";
