/// The version of what is released.
pub const VERSION: &str = "0.3.6";

/// What the program does.
pub const ABOUT: &str = "Rows with keys, queries over them, and cursors that follow their changes";

/// A first session.
pub const FIRST_SESSION: &str = "\
A first session (the answers stand behind =>):
  $ gist serve
  insert (5 5) 0            => committed 1
  find overlaps(0 9)        => found 1
                               row 1 (5 5) 0

gist serve --help    the commands of a session, keys and queries
gist replay --help   the events that drive the tree of pages step by step
gist storm --help    many clients let loose on one tree at once";

/// What `serve` does.
pub const SERVE_ABOUT: &str = "Answers the lines of standard input on standard output";

/// The commands of a session.
pub const SERVE_GUIDE: &str = "\
Commands, one a line, with what answers them:
  insert KEY TAG   adds a row             committed ROW
  delete ROW       deletes a row          committed COMMIT
  move ROW KEY     gives a row a new key  committed NEW, the row's new number
  find QUERY       rows that match now    found COUNT, and a line for each
                                          row ROW KEY TAG
  open ROOM QUERY  opens a cursor         opened CURSOR (ROOM is 1 to 4096)
  open ROOM from COMMIT QUERY             the same, for what comes after COMMIT
  next CURSOR      a cursor's next item   row ROW KEY TAG   there at its opening
                                          inserted ROW KEY TAG   came to match
                                          deleted COMMIT ROW     matches no more
                                          moved NEW ROW KEY TAG  has a new key
                                          mark COMMIT  all up to it was given
                                          empty        nothing is left for now
  mark CURSOR      asks for a mark        asked
  sweep            removes dead rows      swept COUNT
  close CURSOR     closes a cursor        closed
A line that can't be carried out changes nothing and is answered by refused,
the cause's number and name, and the place of a fault of the line.
ROW is the number of the commit that made the row, TAG below 2 to the 64th.

Keys, of the class interval where none is named:
  interval  (LO HI)        numbers of 64 bits, LO not above HI, both inside
  box       (X1 Y1 X2 Y2)  two corners, numbers of 32 bits, the sides inside
  set       {1 5 127}      some of the numbers 0 to 127
Queries, joined by and, or, not and round brackets:
  overlaps KEY     the row's key and KEY share a point (sets: a number)
  within KEY       the row's key lies inside KEY
  holds KEY        KEY lies inside the row's key
  same KEY         the row's key is KEY

A row takes some 90 bytes, of a million sets 107.
For many rows --fan 32 --least 12 is faster.

A session:
  insert (5 5) 0         => committed 1
  open 4 overlaps(0 9)   => opened 1
  move 1 (6 6)           => committed 2
  next 1                 => row 1 (5 5) 0
  next 1                 => moved 2 1 (6 6) 0";

/// What `replay` does.
pub const REPLAY_ABOUT: &str = "Carries out the events on standard input, step by step";

/// The events of a replay.
pub const REPLAY_GUIDE: &str = "\
Each line is one event on a tree of pages, one step: it is carried out whole, or
refused and nothing changes. Pages are numbered from 0, the root. The entries of
a leaf are rows, those of an inner page its children.

Events, one a line, with what answers them:
  place PAGE KEY TAG     adds a row to a leaf                 committed ROW
  split PAGE SIDES       moves a full page's r entries away   split NEW
  post PAGE CHILD        has PAGE name CHILD's sibling         posted
  grow SIDES             moves a full root's entries down     grown LEFT RIGHT
  enlarge PAGE CHILD KEY widens CHILD's bound by KEY          enlarged
  sweep PAGE             removes dead rows no scan needs      swept COUNT
  find ROW               opens a finder, to look for a row    finder FINDER
  seek FINDER            visits a page, deletes the row there committed COMMIT
                                                              or seeking
  move FINDER PAGE KEY   the same, moves the row to a leaf    committed ROW
                                                              or seeking
  unfind FINDER          closes a finder                      unfound
  open ROOM QUERY        opens a cursor with room for ROOM    opened CURSOR
  open ROOM from COMMIT QUERY  for what comes after COMMIT    opened CURSOR
  turn CURSOR            the next piece of a cursor's work    visited PAGE
                         an item went to the mailbox          offered
                         a commit that doesn't match          passed COMMIT
  askmark CURSOR         asks for a mark behind what is left  asked
  take CURSOR            takes the mailbox's first item       item, or nothing
  close CURSOR           closes a cursor                      closed
SIDES has a letter l or r for each entry, such as llrr. ROOM is 1 to 4096. Keys,
queries, items and refusals are those of a session: gist serve --help.

A replay:
  place 0 (1 1) 0         => committed 1
  open 1 overlaps(0 9)    => opened 1
  turn 1                  => visited 0
  turn 1                  => offered
  take 1                  => row 1 (1 1) 0
  take 1                  => nothing";

pub const FAN_HELP: &str = "Most entries of a page, 4 to 64, 32 for many [default: 8]";

pub const LEAST_HELP: &str = "Fewest on a side of a split, 2 to half M [default: 3]";

/// What `storm` does.
pub const STORM_ABOUT: &str =
    "Lets many clients work at one tree, and checks what each of them got";

/// What a storm is, and what it shows.
pub const STORM_GUIDE: &str = "\
Writers insert small intervals and delete the first of them. Each reader follows
a cursor on overlaps(0 499). Each looker takes one snapshot after the other,
finds overlaps(0 499) in each, and takes the changes since the one before. A
feed gives subscriber K the changes of the ten numbers from K mod 600 on. Pumps
do the cursors' work, and one thread more sweeps leaves. At the end what each
reader, looker and subscriber got is compared with the commits.

  commits N            how many changes were made: W times I and D together
  reader K whole at N  reader K took each row of its opening once, then each
                       later change once, in order, and a mark of all N commits
  looker K whole at N  looker K found exactly the rows of each of its snapshots
                       and the changes in between, up to all N commits
  subscriber K whole at N
                       it was given each of its changes once, in order, up to N
  .. not whole         it got something else
  .. no receipt        the cursor or subscription was closed without a receipt
  .. no snapshot       the looker got no snapshot
Where a row was refused, or one of these isn't whole, the status is 1.

What is proved of each call holds for every order of the threads. A storm shows
the whole program at work in some of these orders. It doesn't try all of them,
and what it trusts (the machine's threads, its memory) it can't show.

Writers, readers, lookers, pumps and up to four servers of all subscribers have
a thread each. There are at most 64 of these besides pumps. A row takes some 100
bytes, and each row or change that a looker or a subscriber gets some 40 more.

A storm:
  $ gist storm --writers 4 --inserts 250 --readers 2 --lookers 1 --room 2
  commits 1000
  reader 1 whole at 1000
  reader 2 whole at 1000
  looker 1 whole at 1000";

pub const WRITERS_HELP: &str = "How many threads write, 1 to 32 [default: 4]";

pub const INSERTS_HELP: &str = "Rows that each writer inserts, 0 to 1000 [default: 250]";

pub const DELETES_HELP: &str = "How many of them it deletes, 0 to I [default: 0]";

pub const READERS_HELP: &str = "How many threads follow a cursor, 0 to 32 [default: 2]";

pub const LOOKERS_HELP: &str = "How many threads take snapshots, 0 to 32 [default: 0]";

pub const SUBSCRIBERS_HELP: &str = "How many subscribe to a feed, 0 to 1000 [default: 0]";

pub const ROOM_HELP: &str = "How many items a mailbox holds, 1 to 4096 [default: 2]";

pub const PUMPS_HELP: &str = "How many threads turn cursors, 1 to 8 [default: 2]";

pub const SWEEPS_HELP: &str = "How many leaves are swept, 0 to 1000 [default: 0]";

pub const SEED_HELP: &str = "What keys are drawn from, below 4294967296 [default: 1]";
