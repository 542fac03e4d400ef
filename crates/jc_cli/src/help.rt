//! The texts of help, beside the lists of commands and options that clap makes. The definition has them.

/// The version of the program. Its first number is that of the newest header of a scenario that it reads.
pub(crate) const VERSION: &str = "2.0.0";

/// What the program is for.
pub(crate) const ABOUT: &str =
    "A command machine and time-travelling debugger for the JSON CRDT of Kleppmann and Beresford (2017).\n\
It executes scenarios of concurrent edits by the published rules, forwards and backwards, and shows\n\
what they give, and why.";

/// The command line of the program itself.
pub(crate) const USAGE: &str = "jsoncrdt [COMMAND]\n       jsoncrdt help [COMMAND]";

/// The command line in one line, where its parser has no text.
pub(crate) const BRIEF: &str =
    "Usage: jsoncrdt [check|print|run|view|journal|debug|serve|threads|weave] [FILE]\n";

/// The help of the program.
pub(crate) const PROGRAM: &str =
    "A scenario is a text with a script of commands for each replica, and a schedule of the events\n\
that execute them. Without arguments it acts as `run --trace -`.\n\
`jsoncrdt help COMMAND` and `jsoncrdt COMMAND --help` print the help of a command, with an example.\n\
\n\
Example, a conflict: p and q assign under one key, and then q applies the operation of p.\n  \
echo 'jsoncrdt 1\n    \
replica p { doc.get(\"key\") := \"B\"; yield }\n    \
replica q { doc.get(\"key\") := \"C\"; yield }\n    \
schedule { p.exec; q.exec; p.send; q.recv(p); q.apply(1, p) }' | jsoncrdt view -\n\
prints the document of each. At q both values stand, each with the operation that assigned it:\n  \
{\"doc\":{\"key\":\"B\"},\"name\":\"p\"}\n  \
{\"doc\":{\"key\":{\"!conflict\":{\"values\":[[\"1@p\",\"B\"],[\"1@q\",\"C\"]]}}},\"name\":\"q\"}\n\
\n\
Commands of a script, where P is `doc` or a variable, with any number of .get(\"KEY\") and\n\
.idx(N) behind it, and V is a number, a string, true, false, null, {} or []:\n  \
let NAME = P      bind a variable; also to P.keys or P.values\n  \
P := V            assign\n  \
P.insertAfter(V)  put a new element behind that at P; idx(1) is the first, idx(0) the head\n  \
P.delete          delete what is at P\n  \
yield             take part in the network, by the events below, until done\n\
\n\
Events of a schedule, where A, B and C are replicas:\n  \
A.exec            execute the next command of A\n  \
A.send            at a yield, offer the operations that A made\n  \
A.recv(B)         at a yield, receive the operations that B offers\n  \
A.take(B, N, C)   at a yield, receive one of these, that of C with the counter N (version 2)\n  \
A.apply(N, B)     at a yield, apply the received operation of B with the counter N\n  \
A.done            end the yield, after at least one of these four\n\
\n\
A scenario of version 2 begins with `jsoncrdt 2`. Behind the replicas it may have a block\n\
`given { .. }` of events, which run before the first one of the schedule.\n\
\n\
docs/FORMATS.md and docs/RULES.md in the repository say all of this exactly.\n\
\n\
Statuses:\n  \
0  done, also after help and the version\n  \
1  the scenario's text was refused; the line printed says why and where\n  \
2  the arguments are wrong: no such command or option, no file, a number out of its range,\n     \
or an argument that isn't UTF-8\n  \
3  an event was stuck, since no rule allows it; a line says why\n  \
4  a read or a write failed, a session had too many lines, or the input of serve ended within a\n     \
text or had too many requests\n  \
5  there was no memory, or a thread could not be made";

/// The help of `check`.
pub(crate) const CHECK: &str =
    "A scenario is a text with a script of commands for each replica, and a schedule of the events\n\
that execute them.\n\
A text that is none is refused with the first fault in it and its place, counted in bytes.\n\
No event is executed.\n\
\n\
Example:\n  \
echo 'jsoncrdt 1 replica a { doc.get(\"a\") := 1 } schedule { a.exec }' | jsoncrdt check -\n\
prints\n  \
replicas 1 commands 1 events 1\n\
\n\
Statuses:\n  \
0  done, also after help\n  \
1  the scenario's text was refused; the line printed says why and where\n  \
2  the arguments are wrong\n  \
4  a read or a write failed\n  \
5  there was no memory";

/// The help of `print`.
pub(crate) const PRINT: &str =
    "A scenario is a text with a script of commands for each replica, and a schedule of the events\n\
that execute them.\n\
The canonical text has a line for each command and each event, and the replicas by their names.\n\
It is read as the same scenario.\n\
\n\
Example:\n  \
echo 'jsoncrdt 1 replica a { doc.get(\"a\") := 1 } schedule { a.exec }' | jsoncrdt print -\n\
prints\n  \
jsoncrdt 1\n  \
replica a {\n    \
doc.get(\"a\") := 1;\n  \
}\n  \
schedule {\n    \
a.exec;\n  \
}\n\
\n\
Statuses:\n  \
0  done, also after help\n  \
1  the scenario's text was refused; the line printed says why and where\n  \
2  the arguments are wrong\n  \
4  a read or a write failed\n  \
5  there was no memory";

/// The help of `run`.
pub(crate) const RUN: &str =
    "A scenario is a text with a script of commands for each replica, and a schedule of the events\n\
that execute them.\n\
It stops before an event that no rule allows: the states are those before it, and the last line\n\
says why it is stuck. Where that is a given event, of version 2, no state is printed, but a line\n\
`refused 44 GivenStuck at N`, where N is its number, and that last line.\n\
\n\
Example:\n  \
echo 'jsoncrdt 1 replica a { doc.get(\"a\") := 1 } schedule { a.exec }' | jsoncrdt run -\n\
prints the state of replica a after its only event:\n  \
{\"acted\":false,\"left\":0,\"name\":\"a\",\"ops\":[\"1@a\"],\"queue\":[\"1@a\"],\"recv\":[],\"send\":[],\"tree\":{\"mapT(doc)\":{\"pres(\\\"a\\\")\":[\"1@a\"],\"regT(\\\"a\\\")\":{\"1@a\":{\"n\":\"1\"}}},\"pres(doc)\":[\"1@a\"]},\"vars\":{}}\n\
With --trace the rules of that event come first, EXEC, MAKE-ASSIGN, GET, DOC and so on,\n\
each with its depth. A trace may be very long: an event can use thousands of rules.\n\
\n\
Statuses:\n  \
0  done, also after help\n  \
1  the scenario's text was refused; the line printed says why and where\n  \
2  the arguments are wrong\n  \
3  an event was stuck, since no rule allows it; the last line says why\n  \
4  a read or a write failed\n  \
5  there was no memory";

/// The help of `view`.
pub(crate) const VIEW: &str =
    "A scenario is a text with a script of commands for each replica, and a schedule of the events\n\
that execute them.\n\
\n\
Prints a line of JSON for each replica, with its document after the first N events, or after all.\n\
Given events, of version 2, run before these. Where one is stuck no document is printed, but a line\n\
`refused 44 GivenStuck at N`, where N is its number, and a line that says why.\n\
Where more than one thing stands at a place, all are shown, and none wins:\n  \
{\"!conflict\":{\"list\":[..],\"map\":{..},\"values\":[[\"ID\",VALUE],..]}}\n\
A name that begins with ! is shown with one more ! in front. A replica without a document has no\n\
member doc.\n\
\n\
Example:\n  \
echo 'jsoncrdt 1 replica a { doc.get(\"a\") := 1 } schedule { a.exec }' | jsoncrdt view -\n\
prints the document of replica a after its only event:\n  \
{\"doc\":{\"a\":1},\"name\":\"a\"}\n\
With --at 0 it prints\n  \
{\"name\":\"a\"}\n\
\n\
Statuses:\n  \
0  done, also after help\n  \
1  the scenario's text was refused; the line printed says why and where\n  \
2  the arguments are wrong\n  \
3  an event was stuck, since no rule allows it; the last line says why\n  \
4  a read or a write failed\n  \
5  there was no memory";

/// The help of `journal`.
pub(crate) const JOURNAL: &str =
    "A scenario is a text with a script of commands for each replica, and a schedule of the events\n\
that execute them.\n\
\n\
Prints a line of JSON for each event, with its number, its kind and its replica. `exec` has the\n\
command, and the operation that it made; `apply` has the operation; `send`, `recv` and `take` have\n\
the identifiers that are new. An operation has its cursor, its mutation, and under `deps` what it\n\
depends on: the greatest counter of each replica.\n\
It stops before an event that no rule allows, and the last line says why that one is stuck. Given\n\
events, of version 2, come first, with numbers of their own and `\"given\":true`.\n\
\n\
Example:\n  \
echo 'jsoncrdt 1 replica a { doc.get(\"a\") := 1 } schedule { a.exec }' | jsoncrdt journal -\n\
prints the line of its only event:\n  \
{\"command\":\"doc.get(\\\"a\\\") := 1\",\"event\":\"a.exec\",\"kind\":\"exec\",\"number\":1,\"op\":{\"cursor\":[\"mapT(doc)\",\"\\\"a\\\"\"],\"deps\":{},\"id\":\"1@a\",\"mutation\":\"assign\",\"value\":{\"n\":\"1\"}},\"replica\":\"a\"}\n\
With --trace each line has the rules of its event too, each with its depth.\n\
With --effects each line that has an operation has what this changed in its replica's tree, here\n  \
\"effects\":[{\"gained\":[\"1@a\"],\"key\":\"doc\",\"made\":[\"map\"],\"map\":[{\"gained\":[\"1@a\"],\"key\":\"\\\"a\\\"\",\"made\":[\"register\"],\"shown\":true,\"written\":[[\"1@a\",{\"n\":\"1\"}]]}],\"shown\":true}]\n\
\n\
Statuses:\n  \
0  done, also after help\n  \
1  the scenario's text was refused; the line printed says why and where\n  \
2  the arguments are wrong\n  \
3  an event was stuck, since no rule allows it; the last line says why\n  \
4  a read or a write failed\n  \
5  there was no memory";

/// The help of `serve`.
pub(crate) const SERVE: &str =
    "It is for programs: suites, editors, pages, other tools. Each line of standard input is a request,\n\
and is answered by one line of JSON before the next one is read. docs/PROGRAMS.md in the repository\n\
says what can be asked, and what is answered.\n\
It ends at `quit` or at the end of the input.\n\
\n\
Example:\n  \
printf 'scenario 35\\njsoncrdt 1 replica a {} schedule {}where\\n' | jsoncrdt serve\n\
prints\n  \
{\"commands\":0,\"events\":0,\"given\":0,\"replicas\":1}\n  \
{\"at\":0,\"of\":0}\n\
\n\
Statuses:\n  \
0  done, also after help\n  \
2  the arguments are wrong\n  \
4  a read or a write failed, the input ended within a text, or there were too many requests\n  \
5  there was no memory";

/// The help of `debug`.
pub(crate) const DEBUG: &str =
    "A scenario is a text with a script of commands for each replica, and a schedule of the events\n\
that execute them.\n\
The session begins before the first event. It reads a line, answers it, and then reads the next.\n\
Given events, of version 2, have run then. Where one is stuck no line is read: its number and why it\n\
is stuck are printed.\n\
With the file - there are no lines, since the scenario takes up standard input.\n\
\n\
Lines and their answers, where N, P, M and K are numbers:\n  \
step [N]            execute the next N events, or one: `at P`, the position\n  \
back [N]            take back the last N events, or one: `at P`\n  \
goto N              go to the position after event N, of which 0 is the start: `at P`\n  \
act EVENT           execute this event, as a.exec or a.recv(b), and cut off the rest of the\n                      \
schedule, for good: `at P`\n  \
run                 execute events up to a breakpoint, a stuck event or the end:\n                      \
`at P`, and then `break K`, `stuck ..` or `end`\n  \
break at N, break rule NAME, break replica NAME\n                      \
set a breakpoint for `run`: `set K`\n  \
unbreak K           clear the breakpoint with this number: `cleared K`\n  \
state [NAME]        the state of each replica, or of one: a line of JSON each\n  \
trace               the rules that the last event used: `event P EVENT` and a line each, or `start`\n  \
enabled             the events that could be executed now: a line each, or `none`\n  \
compare NAME NAME   whether two replicas applied the same operations, and whether their trees\n                      \
are the same: `same operations same tree` or `different operations`\n  \
schedule            the events of the schedule: a line `N EVENT` each, or `none`\n  \
where               the position, and how many events there are: `at P of M`\n  \
quit                end, as the end of the input does\n\
An event that no rule allows isn't executed; behind `at P` a line `stuck ..` says why. Any other line\n\
is answered by `refused 58 BadLine`, and one that can't be carried out by another refusal, which\n\
changes nothing. docs/ERRORS.md says what each means.\n\
\n\
Example, where the file `one` has the text of a scenario:\n  \
jsoncrdt 1 replica a { doc.get(\"a\") := 1 } schedule { a.exec }\n\
Then\n  \
printf 'step\\nwhere\\nstate\\n' | jsoncrdt debug one\n\
prints\n  \
at 1\n  \
at 1 of 1\n  \
{\"acted\":false,\"left\":0,\"name\":\"a\",\"ops\":[\"1@a\"],\"queue\":[\"1@a\"],\"recv\":[],\"send\":[],\"tree\":{\"mapT(doc)\":{\"pres(\\\"a\\\")\":[\"1@a\"],\"regT(\\\"a\\\")\":{\"1@a\":{\"n\":\"1\"}}},\"pres(doc)\":[\"1@a\"]},\"vars\":{}}\n\
\n\
Statuses:\n  \
0  done, also after help, after a refused line and after a stuck event\n  \
1  the scenario's text was refused; the line printed says why and where\n  \
2  the arguments are wrong\n  \
3  a given event was stuck, since no rule allows it; the last line says why\n  \
4  a read or a write failed, or there were more than 1,000,000 lines or 67,108,864 bytes of them\n  \
5  there was no memory";

/// The help of `threads`.
pub(crate) const THREADS: &str =
    "A scenario is a text with a script of commands for each replica, and a schedule of the events\n\
that execute them.\n\
The schedule of FILE isn't looked at. Each thread chooses the events of its replica: it executes\n\
the commands one by one, and at a yield it sends, receives from each other replica, applies what\n\
can be applied, and is done. The schedule printed has the events of all in the order in which they\n\
were executed, which may be another one each time. A stuck event isn't in it.\n\
Given events, of version 2, run before any thread starts. Where one is stuck none does: its number\n\
and why it is stuck are printed, and nothing goes to standard error.\n\
\n\
For each replica a line `NAME made M END` goes to standard error, where M is how many events\n\
it executed, and END is why it executed no more:\n  \
finished   its script is done, which it learns in a turn after the last event\n  \
limit      it executed N events, or the schedule has 100000\n  \
no memory  there was no memory for more\n  \
stuck ..   no rule allows its next event; the line says why\n\
\n\
Example:\n  \
echo 'jsoncrdt 1 replica a { doc.get(\"a\") := 1 } schedule { a.exec }' | jsoncrdt threads -\n\
prints\n  \
jsoncrdt 1\n  \
replica a {\n    \
doc.get(\"a\") := 1;\n  \
}\n  \
schedule {\n    \
a.exec;\n  \
}\n\
and on standard error\n  \
a made 1 finished\n\
\n\
Statuses:\n  \
0  done, also after help\n  \
1  the scenario's text was refused; the line printed says why and where\n  \
2  the arguments are wrong\n  \
3  a given event or a replica's was stuck, since no rule allows it; its line says why\n  \
4  a read or a write failed\n  \
5  there was no memory, or a thread could not be made";

/// The help of `weave`.
pub(crate) const WEAVE: &str =
    "A scenario is a text with a script of commands for each replica, and a schedule of the events\n\
that execute them.\n\
The schedule of FILE isn't looked at. In each turn one replica is drawn, and executes the event that\n\
its thread would choose, as `jsoncrdt help threads` says. A replica whose script is done, or whose\n\
event is stuck, is drawn no more. Where a `yield` is a replica's last command, it sends and then\n\
waits, before it receives, until no other one has anything to do before. So one `yield` at the end\n\
of each script is enough for all to receive what the others sent. A stuck event isn't in the\n\
schedule.\n\
The same seed gives the same schedule, on any machine. Put yields between commands: with all commands\n\
first, and one `yield` last, all is concurrent in whatever order it is executed. A command that\n\
needs what others made is stuck where that isn't there yet. Where each seed ends so, give it as the\n\
past, in a block `given { .. }`, or put more yields before the command.\n\
Given events, of version 2, run before any replica is drawn. Where one is stuck none is: its number\n\
and why it is stuck are printed, and nothing goes to standard error.\n\
\n\
For each replica a line `NAME made M END` goes to standard error, where M is how many events\n\
it executed, and END is why it executed no more:\n  \
finished   its script is done\n  \
limit      the schedule has as many events as the limit\n  \
stuck ..   no rule allows its next event; the line says why\n\
\n\
Example:\n  \
echo 'jsoncrdt 1 replica a { doc.get(\"a\") := 1 } schedule { }' | jsoncrdt weave --seed 7 -\n\
prints\n  \
jsoncrdt 1\n  \
replica a {\n    \
doc.get(\"a\") := 1;\n  \
}\n  \
schedule {\n    \
a.exec;\n  \
}\n\
and on standard error\n  \
a made 1 finished\n\
\n\
Statuses:\n  \
0  done, also after help\n  \
1  the scenario's text was refused; the line printed says why and where\n  \
2  the arguments are wrong\n  \
3  a given event or a replica's was stuck, since no rule allows it; its line says why\n  \
4  a read or a write failed\n  \
5  there was no memory";
