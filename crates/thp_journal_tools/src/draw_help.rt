//! The text of `thpdraw --help`.

/// The part of `--help` after the options.
pub(crate) const AFTER_HELP: &str = "\
The journal is read from standard input, and one SVG picture is written to standard output, for a browser or any other viewer.
With --table, the numbers of the picture are written instead, as lines of tab-separated fields. A journal can have any length:
the memory used depends on the live pages of one node, and on at most 600 columns of each. 'thpsplit' writes such journals:

    thpsplit --report journal < SCRIPT | thpdraw > picture.svg

Each node is drawn over its events, from left to right:

  - the number of pages in the queue and in batches
  - when each caller had pages in its batch
  - how long the oldest page has waited
  - the number of frames held and given back
  - the life of each page as a bar; with more than 60 pages, the number of pages in each stage; with more than 1,000,
    also the lives of the first 60
  - above, the pages whose split is prevented by pins

Of more than eight nodes, the first 256 are drawn small, on the same scales: the queue and the frames given back. A picture has
at most 2 MB.

A node with an illegal event is drawn up to the first one. With --node, only this node is drawn, with its number:

    thpdraw --node 3 < JOURNAL > node3.svg

With --progress, standard error shows the progress once a second. The line is removed before anything is written. If standard
error is a terminal, this happens without the option too, after the first second:

    thpdraw: 12.3 MiB, 4567 events, 98.1 MiB/s

Exit status:
  0  the nodes were drawn, or this help or the version was written
  1  the nodes were drawn, and one of them has an illegal event
  2  the journal or the command line has an error, or the journal has no such node; nothing was drawn
  3  memory could not be allocated, or a read or a write failed

Messages on standard error:
  2  'thpdraw: line L: ERROR', for the first line of the journal with an error: bad-byte, cut, bad-word, bad-count, bad-number,
     bad-set, bad-order. Lines end with a line feed only; a tab or carriage return is reported as bad-byte. An error is
     reported even if it comes after an illegal event.
  2  'thpdraw: no node N', if the journal does not have the node of --node
  2  what is wrong with the command line
  3  'thpdraw: out of memory', 'thpdraw: read failed', 'thpdraw: write failed'";
