//! What the program says of itself.

pub(crate) const VERSION: &str = "graspan 0.2.0\n";

pub(crate) const HELP: &str = "\
graspan closes a labelled graph under a context-free grammar, on one machine, with the graph on disk.

Usage: graspan STORE COMMAND [OPTIONS]
       graspan --help | --version

STORE is a folder, which is made where it isn't there. It holds the graph, the grammar and the closure.

Commands:
  run EDGES GRAMMAR   import both files, or resume a stopped run of them; close; print partitions and labels
  query LABEL U [V]   print the vertices that LABEL reaches from U, or only V
  emit KIND SOURCE    print the graph of a C file, for KIND alias or null; STORE is not touched
  dump                print every edge of the closure: source, destination, label
  parts               print the partitions, and whether the closure is finished

Options of run:
  --workers W         1 to 64 workers (default 4)
  --part-edges P      edges of a partition at import, 1 to 4294967295 (default 1000000)
  --budget B          edges in memory, 1 to 4294967295 (default 16000000)
  --show LABEL        print the edges of LABEL when done

A value may stand behind '=' (--show=-a). Behind -- each word is a plain one (query -- -a 0).
So far one worker runs, whatever W is, and B is not used yet.

Exit statuses: 0 done, 1 words, 2 a fault of an input file, 3 the store is of other files, 4 a read failed,
5 the disk failed, 6 the output failed, 7 no memory, 8 a damaged store, 9 no store, 10 not closed yet,
11 no such label or vertex. Each but 0 and 6 prints a line that begins with 'fault'.

Example:
  printf '0 1 a\\n1 2 b\\n' > edges; printf 'S a b\\n' > grammar
  graspan store run edges grammar --show S
";
