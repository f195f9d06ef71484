//! The text of `thpcheck --help`.

/// The part of `--help` after the options.
pub(crate) const AFTER_HELP: &str = "\
The journal is read from standard input, and the verdict is written to standard output: 'legal', or 'illegal line L', where L is
the line of the first illegal event. A journal can have any length: the memory used depends on the live pages of one node, not
on the length. 'thpsplit --check' has the same verdicts for journals of up to 16 MiB. 'thpsplit' also writes such journals:

    thpsplit --report journal < SCRIPT | thpcheck

With --explain, the program explains an illegal journal on standard error: its first illegal event, the events that would be
legal there, and the reason. Standard output and the exit status are the same:

    line 9: 0 back 1
    expected: 0 back 0
    or: 0 dropped 0
    why: page 0 is the first of the flight of caller 0

With --summary, the totals of each node follow the verdict, in the form of 'thpsplit --report totals'. They cover all events of
the node, or those before its first illegal one.

With --script, standard output gets a script that repeats the journal, as 'thpsplit' reads it, up to the first illegal event. A
verdict other than 'legal' goes to standard error, and --summary and --progress have no effect:

    thpcheck --script < JOURNAL > SCRIPT

The script is that of one caller. Its comments have the options of 'thpsplit', the last one those of all nodes. A journal of
callers that had no batches at the same time, and tried their pages in the order of the takes, is repeated exactly, except for
the callers' numbers. A batch that began while another one was open is a scan after it, and standard error reports what was
moved, and tries in another order.

With --progress, standard error shows the progress once a second. The line is removed before the verdict is written. If standard
error is a terminal, this happens without the option too, after the first second:

    thpcheck: 12.3 MiB, 4567 events, 98.1 MiB/s

Exit status:
  0  the journal is legal, or this help or the version was written
  1  the journal is illegal
  2  the journal or the command line has an error
  3  memory could not be allocated, or a read or a write failed

Messages on standard error:
  2  'thpcheck: line L: ERROR', for the first line of the journal with an error: bad-byte, cut, bad-word, bad-count, bad-number,
     bad-set, bad-order. Lines end with a line feed only; a tab or carriage return is reported as bad-byte. An error is
     reported even if it comes after an illegal event.
  2  what is wrong with the command line
  3  'thpcheck: out of memory', 'thpcheck: read failed', 'thpcheck: write failed'";
