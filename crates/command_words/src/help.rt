//! The texts of `--help` and `--version`.

/// What `--help` prints: each command with its options and their defaults, and the exits.
pub const HELP: &str = "\
ratelimit: a rate limiter after Envoy's rate limit service, over recorded traffic and over HTTP

  drive [--workers N] [--cells N] [--start T] [--global-shadow] [--stats] CONFIG..
      Reads configuration files and then a script from standard input, and prints a record for each line of the script
      and a total for each counter whose window is open at its end.
        --workers N        workers: 1 to 64 (default 1)
        --cells N          cells for counters: 1 to 1048576 (default 262144)
        --start T          the moment of the start, in seconds: 0 to 1000000000000 (default 0)
        --global-shadow    no reply has the overall code OVER_LIMIT
        --stats            prints behind the totals what each rule counted, admitted and refused, in hits
  lookup CONFIG..
      Reads configuration files and then requests from standard input, one a line, and prints which rule each descriptor
      of each request finds.
  quota --settings F [--workers N] STREAM..
      Reads quota settings and recorded streams of a quota filter, and prints for each stream, in order, what a lawful
      client would have done: decisions, assignments with their effect, usage reports.
        --settings F       the settings file
        --workers N        workers: 1 to 64 (default 4); the output is the same for every number
  pool --pools F EVENTS
      Reads pools of quota and recorded usage reports of clients, and prints the assignments of a quota server whose clients
      together hold at most each pool.
        --pools F          the file of pools
  audit --run F [--workers N] [--cells N] [--start T] [--global-shadow] CONFIG..
      Reads configuration files, a printed run of drive and then its script from standard input, and prints whether the run is
      lawful, or its first line that is no record or total, or the first clause that it breaks. Whether there were cells for a check
      that was answered isn't judged. The options are those of the run.
        --run F            the file of the run
        --workers N        workers: 1 to 64 (default 1)
        --cells N          cells for counters: 1 to 1048576 (default 262144)
        --start T          the moment of the start, in seconds: 0 to 1000000000000 (default 0)
        --global-shadow    no reply has the overall code OVER_LIMIT
  serve --port P --connections N [--workers N | --tasks N] [--cells N] [--global-shadow] [--stats] CONFIG..
      Reads configuration files and answers checks over HTTP at the loopback address: POST /json with a RateLimitRequest, GET
      /healthcheck. Prints its port, and after N connections how each of them ended.
        --port P           the port, 0 for a free one
        --connections N    how many connections are served: 0 to 1048576
        --workers N        connections served side by side, each by a thread of its own: 1 to 64 (default 4)
        --tasks N          many connections on one thread: so many open at a time, 1 to 256, none of which waits for another
        --cells N          cells for counters: 1 to 1048576 (default 262144)
        --global-shadow    no reply has the overall code OVER_LIMIT
        --stats            answers GET /stats with what each rule counted, admitted and refused so far, in hits
  gen NUMBER CHECKS
      Runs the made-up load of a number, 0 to 18446744073709551615, by four workers: so many checks, 0 to 1048576, of 64 counters that
      admit 100 hits each. Prints how many were admitted and how many denied, which is the same for each run.
  --help
      Prints this text.
  --version
      Prints the version.

Exits: 0 done, 1 usage, 2 a configuration file is refused, 3 a file or the input is too long, 4 reading the input failed,
5 writing the output failed, 6 reading a file failed, 7 out of memory or random bytes, 8 listening failed, 9 quota settings or
pools are refused.
";

/// What `--version` prints.
pub const VERSION: &str = "ratelimit 0.1.0\n";
