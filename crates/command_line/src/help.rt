//! The text of help after the usage and the options, so that the program alone is enough to go by.
//! Functions give the texts, so that no proof has to read them.

/// Help after the program's commands: its statuses, and its messages on standard error.
pub(crate) fn of_program() -> &'static str {
    "\
Exit status:
  0  done; help or the version was asked for
  1  test, dump: a script has a fault, or the message's verdict is an error
  2  a mistake in the command line; something too large, or too many scripts; a session that
     ended by \"no syntax\" or \"no truncated\"
  3  something could not be read or written, or a session made too many reads
  4  out of memory

Standard error, each line after \"sievebench: \":
  cannot read \"PATH\"          a folder cannot be listed, or a file cannot be read
  cannot read standard input  a session's input failed
  cannot write                standard output failed
  too large \"PATH\"            a file, its name or the value of an option is past its limit
  too many scripts            test: more than there may be
  too many reads              a session made 1000000000 reads, and its input had not ended
  out of memory               memory was refused
A mistake in the command line is reported in words of its own.

Quoted text, as \"PATH\" above, has a \\ before \" and \\, and \\xHH with two hexadecimal digits for
each octet outside 32 to 126.

'sievebench help COMMAND' says more of each command. docs/FORMATS.md of the project has the
reports, the dumps, the sessions and the limits in full."
}

/// Help after the usage of `session`: its lines and their replies.
pub(crate) fn of_session() -> &'static str {
    "\
A line of the input is a command; each is answered by a reply:
  script PLACE NAME N             put a script: the N octets after the line's end are its text
  message ID N                    put a message: the N octets after the line's end
  main PLACE NAME                 run that script
  no-main                         run none
  rename PLACE NAME PLACE NAME    rename the first script to the second name
  drop-script PLACE NAME          remove a script
  drop-message ID                 remove a message
  expect ID N                     expect the N octets after the line's end as the lines of a
                                  message's verdict, without the names that it looked up
  no-expect ID                    expect nothing of it
  envelope FROM TO                set the addresses of the sender and of the recipient
  mailbox BOX                     set the mailbox that mail is kept in
  mailboxes N                     with mailbox: the N octets after the line's end list the mailboxes
  clock SECONDS ZONE              with date: set the time, seconds since 1970 and a zone as +0200
  no-clock                        with date: leave no clock
  message-envelope ID FROM TO     with envelopes: give a message addresses of its own, which a line
                                  \"  envelope FROM TO\" of the report shows after its line message
  no-message-envelope ID          with envelopes: take its own addresses from it
  report                          print the report, as 'sievebench help test' shows it, of all
                                  messages; its first line is \"main none\" where no script is run,
                                  a message of which a verdict is expected ends by \"  expected\" or
                                  \"  unexpected\", and the last line then by \" U unexpected\"
  dump PLACE NAME                 print a script's code, and then ok

PLACE is personal or global. Words stand between spaces; a name, an id, an address or a mailbox
may stand in \"..\" with \\\", \\\\ and \\xHH for \", \\ and any octet. N is one to nine digits. A
command that says \"with\" is there only where --with gives that name.

A reply is ok, or no and why, and the session goes on: no-such-script, invalid-script, name-taken,
no-such-message, full, too-large, no-memory. Any other line is answered \"no syntax\", and an input
that ends inside N octets \"no truncated\": both end the session with status 2.

Exit status: 0 done, 2 as above, 3 the input or the output failed or too many reads were made,
4 out of memory. It tells of the session alone: with a verdict that is an error, a script's fault
or a reply no it is 0 all the same. For a status of 1 on a verdict that is an error or isn't as
expected, or on a reply no, where INPUT writes a session that ends by a report:
  set -o pipefail
  INPUT | sievebench session > replies || exit
  ! grep '^no ' replies && tail -n 1 replies | grep -Ex 'total [0-9]+ messages 0 errors( 0 unexpected)?'

docs/FORMATS.md of the project has all of this in full."
}

/// Help after the usage of `dump`: its lines.
pub(crate) fn of_dump() -> &'static str {
    "\
Standard output is the script's code, one operation a line: its place from 0, then \": \" and the
operation. A script with a fault has the line of the report in place of code,
  script personal \"NAME\" line N KIND
where NAME is the last part of the path without a final .sieve, and KIND is syntax or the word of
the rule that is broken. A path that begins with - stands after --.

Exit status: 0 done, 1 the script has a fault, 2 a mistake in the command line or a script past
1048576 octets or a name past 1024, 3 the script could not be read or the code not be written,
4 out of memory. docs/FORMATS.md of the project has the operations."
}

/// Help after the usage of `test`: the files that it reads, and the lines of the report.
pub(crate) fn of_test() -> &'static str {
    "\
Each plain file NAME.sieve of a folder is the script NAME; other files are passed over. SCRIPT is
a personal script, named by the last part of its path without a final .sieve; it takes the place
of one of that name in the personal folder. An include finds scripts of the two folders alone: give
--personal for those beside SCRIPT. Nothing is delivered, and no file is written. A value that
begins with - is joined to its option, as in -f-x or --to=-x, and doesn't stand after --, whatever
a tip says; a path that begins with - does.

Standard output is the report:
  main personal \"NAME\"
  envelope \"FROM\" \"TO\" mailbox \"BOX\"
  with NAME..                            where --with gives names: these, in their order
  clock SECONDS ZONE                     with date: what time it is, or clock none
  mailboxes N                            with mailbox: how many names the list of mailboxes has
  script PLACE \"NAME\" ok                 for each script, PLACE being personal or global
  script PLACE \"NAME\" line N KIND        or its first fault: syntax, or the broken rule's word
  message \"MAIL\"
    store \"BOX\" \"FLAG\"..                for each action: mail is stored, with these flags,
    redirect \"ADDRESS\"                   sent on,
    discard                              dropped,
    vacation \"REASON\"..                  answered, with what else the command gives,
    reject \"REASON\"                      or rejected, or so with ereject for reject
    at PLACE \"NAME\" line N               with lines, after each action: the command that entered it
    implicit \"BOX\" \"FLAG\"..             no action took the mail over: it is kept
    error PLACE \"NAME\" line N KIND       the run failed there, and the mail is kept; on line 0 the
                                         main script is missing or has a fault
    read PLACE \"NAME\"                    for each script that was looked up,
    read PLACE \"NAME\" missing            or was not there
  total 1 messages E errors
Names, addresses, mailboxes and flags are quoted: \\ before \" and \\, and \\xHH for each octet
outside 32 to 126.

Limits: 1048576 octets a script and the list of mailboxes, 16777216 the mail; 1024 a name, an
address and the word MAIL; 255 the mailbox; 4096 scripts.

Exit status: 0 done, 1 a script has a fault or the verdict is an error, 2 a mistake in the command
line, something too large or too many scripts, 3 something could not be read or written, 4 out of
memory. docs/FORMATS.md of the project has the report in full, docs/LANGUAGE.md the words of
rules and errors."
}
