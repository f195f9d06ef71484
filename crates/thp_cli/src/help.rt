//! The text of `--help`.

/// The part of `--help` after the options.
pub(crate) const AFTER_HELP: &str = "\
The script is read from standard input, and the report is written to standard output. A first script:

    setup
    alloc 0
    splitpmd 0 0
    unmap 0 0 0 256
    scan 0 8

A line 'setup' or 'worker K', with K from 1 to WORKERS, begins a section. Setup is the first section, and the workers follow in
ascending order. Each following line is a command for one NODE, numbered from 0. A PAGE is the number of an allocation on its
node, counted from 0. After setup, all workers run concurrently. Empty lines and lines that begin with '#' are ignored.

Commands:
  alloc NODE                    allocate a page, mapped whole
  mapwhole NODE PAGE            map the whole page once more
  unmapwhole NODE PAGE          remove one mapping of the whole page
  map NODE PAGE FIRST COUNT     map COUNT subpages from FIRST on once more
  unmap NODE PAGE FIRST COUNT   remove one mapping of each of COUNT subpages from FIRST on
  write NODE PAGE FIRST COUNT   write data to COUNT subpages from FIRST on
  zero NODE PAGE FIRST COUNT    write zeros to COUNT subpages from FIRST on
  splitpmd NODE PAGE            split the page's PMD mapping
  pin NODE PAGE                 pin the page
  unpin NODE PAGE               remove one pin
  scan NODE COUNT               let the shrinker take up to COUNT pages, 0 to 128, and split them
  take NODE COUNT               take up to COUNT of the oldest queued pages, 0 to 128, into a batch
  splitnext NODE                try to split the next page of the batch
  putback NODE                  return the remaining pages of the batch
  count NODE                    report the number of queued pages
  close NODE                    close the node

A command that is refused has the answer 'refused WORD' and changes nothing: no-page, bad-range, is-split, not-mapped, gone,
not-pinned, too-many, closed, no-block, has-batch.

With --check, the program reads a journal from standard input instead, and writes 'legal' or 'illegal line L'.

Exit status:
  0  the report, this help or the version was written, or the journal is legal
  1  the journal is illegal
  2  the script, the journal or the command line has an error
  3  memory could not be allocated, or a read or a write failed

Messages on standard error:
  2  'thpsplit: line L: ERROR', for the first line of the script or journal with an error: bad-byte, cut, bad-word, bad-count,
     bad-number, bad-set, bad-order; 'line 0: too-long' for more than 16 MiB. Lines end with a line feed only; a tab or
     carriage return is reported as bad-byte.
  2  'thpsplit: bad orders', 'thpsplit: bad underused', or what is wrong with the command line
  3  'thpsplit: out of memory', 'thpsplit: read failed', 'thpsplit: write failed'";
