//! Rows of requests and the lines that answer them, worked out from the formats' page by the rules in Python.

use jc_fakes::{Bytes, CountsFlushes, OneByte, Taken};
use jc_serve::serve;
use std::alloc::{AllocError, Global};
use std::process::Abort;

/// Two replicas, maps and a list.
const ONE: &str =
    "jsoncrdt 1 replica a { doc.get(\"a\") := 1; yield; doc.get(\"a\") := {}; let x = doc.get(\"a\"); yield } replica b { doc.get(\"a\") := \"x\"; yield; doc.get(\"l\") := []; yield; doc.get(\"l\").idx(0).insertAfter(\"y\"); yield } schedule { a.exec; b.exec; a.send; b.send; a.recv(b); b.recv(a); a.apply(1, b); b.apply(1, a); a.done; b.done; a.exec; a.exec; b.exec; b.send; b.done; b.exec }";

/// Events are given.
const TWO: &str =
    "jsoncrdt 2 replica p { doc.get(\"k\").get(\"m\") := 1; yield; doc.get(\"k\").delete; yield } replica q { yield } given { p.exec; p.send; q.take(p, 1, p) } schedule { q.apply(1, p); q.exec; p.done; p.exec }";

/// A given event is stuck.
const STUCK: &str =
    "jsoncrdt 2 replica p { doc := 1; yield } given { p.exec; p.done; p.exec } schedule { p.send }";

/// Values in braces and brackets, and a `;` behind the last of a block.
const BLOCKS: &str =
    "jsoncrdt 1\nreplica a {}\nreplica b { doc := {}; doc := []; }\nschedule { b.exec; b.exec; }";

/// The last event is stuck.
const LATE: &str =
    "jsoncrdt 1 replica a { let x = doc.get(\"a\"); doc.get(\"a\") := 1; yield } schedule { a.exec; a.exec; a.send; a.exec }";

/// Replicas end in different ways.
const ENDS: &str =
    "jsoncrdt 1 replica a { doc.get(\"a\").get(\"b\") := 1; yield; let y = doc.get(\"q\").idx(3); yield } replica b { yield } schedule { a.exec; a.send; b.exec; b.recv(a); b.apply(1, a); a.done; a.exec }";

/// A scenario, if there is one, the requests behind it, and the lines that answer all of them.
type Row<'a> = (Option<&'a str>, &'a str, &'a [&'a str]);

const MOVES: &[Row<'static>] = &[
    // Nothing is asked.
    (None, "", &[]),
    // Where there is no scenario, why the text is refused comes behind 58 alone.
    (
        None,
        "where\njump\n\n view\t a \nbreak rule NONE\nbreak rule EXEC\nview a doc.\nscenario\nplaces\nquit\nwhere\n",
        &[
            "{\"refused\":{\"column\":1,\"end\":0,\"line\":1,\"name\":\"NoHeader\",\"number\":14,\"offset\":0}}",
            "{\"refused\":{\"name\":\"BadLine\",\"number\":58}}",
            "{\"refused\":{\"name\":\"BadLine\",\"number\":58}}",
            "{\"refused\":{\"column\":1,\"end\":0,\"line\":1,\"name\":\"NoHeader\",\"number\":14,\"offset\":0}}",
            "{\"refused\":{\"name\":\"BadLine\",\"number\":58}}",
            "{\"refused\":{\"column\":1,\"end\":0,\"line\":1,\"name\":\"NoHeader\",\"number\":14,\"offset\":0}}",
            "{\"refused\":{\"column\":1,\"end\":0,\"line\":1,\"name\":\"NoHeader\",\"number\":14,\"offset\":0}}",
            "{\"refused\":{\"name\":\"BadLine\",\"number\":58}}",
            "{\"refused\":{\"column\":1,\"end\":0,\"line\":1,\"name\":\"NoHeader\",\"number\":14,\"offset\":0}}",
            "{\"quit\":true}",
        ],
    ),
    // A text that is refused, and its place.
    (
        Some("jsoncrdt 1\nreplica a { doc := \"é\" \"x\" }"),
        "where\nquit",
        &[
            "{\"refused\":{\"column\":24,\"end\":38,\"expected\":[\";\",\"}\"],\"line\":2,\"name\":\"Unexpected\",\"number\":7,\"offset\":35}}",
            "{\"refused\":{\"column\":24,\"end\":38,\"expected\":[\";\",\"}\"],\"line\":2,\"name\":\"Unexpected\",\"number\":7,\"offset\":35}}",
            "{\"quit\":true}",
        ],
    ),
    // Moves, with their events.
    (
        Some(ONE),
        "where\nstep\nstep 2\nback\ngoto 5\ngoto end\nback 20\nstep\ngoto 0\nback\nrun\nrun\nback run\nback run\nwhere\n",
        &[
            "{\"commands\":11,\"events\":16,\"given\":0,\"replicas\":2}",
            "{\"at\":0,\"of\":16}",
            "{\"at\":1,\"event\":\"a.exec\"}",
            "{\"at\":3,\"event\":\"a.send\"}",
            "{\"at\":2,\"event\":\"b.exec\"}",
            "{\"at\":5,\"event\":\"a.recv(b)\"}",
            "{\"at\":16,\"event\":\"b.exec\"}",
            "{\"refused\":{\"name\":\"AtStart\",\"number\":50}}",
            "{\"refused\":{\"name\":\"AtEnd\",\"number\":51}}",
            "{\"at\":0}",
            "{\"refused\":{\"name\":\"AtStart\",\"number\":50}}",
            "{\"at\":16,\"end\":true,\"event\":\"b.exec\"}",
            "{\"refused\":{\"name\":\"AtEnd\",\"number\":51}}",
            "{\"at\":0,\"start\":true}",
            "{\"refused\":{\"name\":\"AtStart\",\"number\":50}}",
            "{\"at\":0,\"of\":16}",
        ],
    ),
    // What a session shows.
    (
        Some(ONE),
        "state a\ngoto 9\nstate a\nstate c\ntrace\nenabled\nschedule\ncompare a b\ncompare a c\ngoto 0\ntrace\ncompare a b\n",
        &[
            "{\"commands\":11,\"events\":16,\"given\":0,\"replicas\":2}",
            "{\"acted\":false,\"left\":5,\"name\":\"a\",\"ops\":[],\"queue\":[],\"recv\":[],\"send\":[],\"tree\":{},\"vars\":{}}",
            "{\"at\":9,\"event\":\"a.done\"}",
            "{\"acted\":false,\"left\":3,\"name\":\"a\",\"ops\":[\"1@a\",\"1@b\"],\"queue\":[\"1@a\"],\"recv\":[\"1@b\"],\"send\":[\"1@a\"],\"tree\":{\"mapT(doc)\":{\"pres(\\\"a\\\")\":[\"1@a\",\"1@b\"],\"regT(\\\"a\\\")\":{\"1@a\":{\"n\":\"1\"},\"1@b\":\"x\"}},\"pres(doc)\":[\"1@a\",\"1@b\"]},\"vars\":{}}",
            "{\"refused\":{\"name\":\"UnknownReplica\",\"number\":18}}",
            "{\"event\":\"a.done\",\"number\":9,\"rules\":[[0,\"DONE\"]]}",
            "[\"a.exec\",\"b.send\",\"b.recv(a)\",\"b.recv(b)\",\"b.done\"]",
            "[\"a.exec\",\"b.exec\",\"a.send\",\"b.send\",\"a.recv(b)\",\"b.recv(a)\",\"a.apply(1, b)\",\"b.apply(1, a)\",\"a.done\",\"b.done\",\"a.exec\",\"a.exec\",\"b.exec\",\"b.send\",\"b.done\",\"b.exec\"]",
            "{\"operations\":\"same\",\"tree\":\"same\"}",
            "{\"refused\":{\"name\":\"UnknownReplica\",\"number\":18}}",
            "{\"at\":0}",
            "{\"start\":true}",
            "{\"operations\":\"same\",\"tree\":\"same\"}",
        ],
    ),
];

const BREAKPOINTS: &[Row<'static>] = &[
    // Events of the asker's own.
    (
        Some(ONE),
        "goto 2\nact a.send\nwhere\nschedule\nact a.fly\nact a.recv(z)\nact b.apply(7, a)\nprint\ngoto end\n",
        &[
            "{\"commands\":11,\"events\":16,\"given\":0,\"replicas\":2}",
            "{\"at\":2,\"event\":\"b.exec\"}",
            "{\"at\":3,\"event\":\"a.send\"}",
            "{\"at\":3,\"event\":\"a.send\",\"of\":3}",
            "[\"a.exec\",\"b.exec\",\"a.send\"]",
            "{\"refused\":{\"column\":3,\"end\":5,\"line\":1,\"name\":\"Unexpected\",\"number\":7,\"offset\":2}}",
            "{\"refused\":{\"column\":8,\"end\":8,\"line\":1,\"name\":\"UnknownReplica\",\"number\":18,\"offset\":7}}",
            "{\"at\":3,\"event\":\"a.send\",\"stuck\":{\"cause\":\"NotReceived\",\"event\":\"b.apply(7, a)\",\"kind\":\"apply\",\"number\":4,\"offered\":[],\"replica\":\"b\",\"stuck\":34}}",
            "\"jsoncrdt 1\\nreplica a {\\n  doc.get(\\\"a\\\") := 1;\\n  yield;\\n  doc.get(\\\"a\\\") := {};\\n  let x = doc.get(\\\"a\\\");\\n  yield;\\n}\\nreplica b {\\n  doc.get(\\\"a\\\") := \\\"x\\\";\\n  yield;\\n  doc.get(\\\"l\\\") := [];\\n  yield;\\n  doc.get(\\\"l\\\").idx(0).insertAfter(\\\"y\\\");\\n  yield;\\n}\\nschedule {\\n  a.exec;\\n  b.exec;\\n  a.send;\\n}\\n\"",
            "{\"at\":3,\"event\":\"a.send\"}",
        ],
    ),
    // Breakpoints of each kind, and runs both ways.
    (
        Some(ONE),
        "break at 4\nbreak rule LET\nbreak replica b\nbreak op 1@a\nbreak place a doc.get(\"a\")\nbreaks\nrun\nunbreak 3\nrun\nrun\nrun\nrun\nrun\nrun\nback run\nback run\nback run\nback run\nunbreak 3\nunbreak 9\nunbreak 0\nbreak replica b\nbreaks\n",
        &[
            "{\"commands\":11,\"events\":16,\"given\":0,\"replicas\":2}",
            "{\"set\":1}",
            "{\"set\":2}",
            "{\"set\":3}",
            "{\"set\":4}",
            "{\"set\":5}",
            "[{\"at\":4,\"kind\":\"at\",\"number\":1},{\"kind\":\"rule\",\"number\":2,\"rule\":\"LET\"},{\"kind\":\"replica\",\"number\":3,\"replica\":\"b\"},{\"kind\":\"op\",\"number\":4,\"op\":\"1@a\"},{\"cursor\":[\"mapT(doc)\",\"\\\"a\\\"\"],\"kind\":\"place\",\"number\":5,\"replica\":\"a\"}]",
            "{\"at\":1,\"break\":4,\"event\":\"a.exec\"}",
            "{\"cleared\":3}",
            "{\"at\":4,\"break\":1,\"event\":\"b.send\"}",
            "{\"at\":7,\"break\":5,\"event\":\"a.apply(1, b)\"}",
            "{\"at\":8,\"break\":4,\"event\":\"b.apply(1, a)\"}",
            "{\"at\":11,\"break\":5,\"event\":\"a.exec\"}",
            "{\"at\":12,\"break\":2,\"event\":\"a.exec\"}",
            "{\"at\":16,\"end\":true,\"event\":\"b.exec\"}",
            "{\"at\":12,\"break\":2,\"event\":\"a.exec\"}",
            "{\"at\":11,\"break\":5,\"event\":\"a.exec\"}",
            "{\"at\":8,\"break\":4,\"event\":\"b.apply(1, a)\"}",
            "{\"at\":7,\"break\":5,\"event\":\"a.apply(1, b)\"}",
            "{\"refused\":{\"name\":\"NoSuchBreak\",\"number\":53}}",
            "{\"refused\":{\"name\":\"NoSuchBreak\",\"number\":53}}",
            "{\"refused\":{\"name\":\"NoSuchBreak\",\"number\":53}}",
            "{\"set\":3}",
            "[{\"at\":4,\"kind\":\"at\",\"number\":1},{\"kind\":\"rule\",\"number\":2,\"rule\":\"LET\"},{\"kind\":\"replica\",\"number\":3,\"replica\":\"b\"},{\"kind\":\"op\",\"number\":4,\"op\":\"1@a\"},{\"cursor\":[\"mapT(doc)\",\"\\\"a\\\"\"],\"kind\":\"place\",\"number\":5,\"replica\":\"a\"}]",
        ],
    ),
];

const LOOKS: &[Row<'static>] = &[
    // Breakpoints that are refused.
    (
        Some(ONE),
        "break rule NONE\nbreak replica z\nbreak op 1@z\nbreak op x@a\nbreak op 1@\nbreak place z doc.\nbreak place a doc.\nbreak place a\nbreak place a doc.keys\nbreak place a y\nbreak place a doc.get(\"n\").get(\"m\")\nbreak at -1\n",
        &[
            "{\"commands\":11,\"events\":16,\"given\":0,\"replicas\":2}",
            "{\"refused\":{\"name\":\"BadLine\",\"number\":58}}",
            "{\"refused\":{\"name\":\"UnknownReplica\",\"number\":18}}",
            "{\"refused\":{\"name\":\"UnknownReplica\",\"number\":18}}",
            "{\"refused\":{\"name\":\"BadLine\",\"number\":58}}",
            "{\"refused\":{\"name\":\"BadLine\",\"number\":58}}",
            "{\"refused\":{\"name\":\"UnknownReplica\",\"number\":18}}",
            "{\"refused\":{\"column\":5,\"end\":4,\"line\":1,\"name\":\"EndOfText\",\"number\":8,\"offset\":4}}",
            "{\"refused\":{\"column\":1,\"end\":0,\"line\":1,\"name\":\"EndOfText\",\"number\":8,\"offset\":0}}",
            "{\"refused\":{\"name\":\"NoMap\",\"number\":27}}",
            "{\"refused\":{\"name\":\"UnboundVariable\",\"number\":22}}",
            "{\"set\":1}",
            "{\"refused\":{\"name\":\"BadLine\",\"number\":58}}",
        ],
    ),
    // Views, states and values, here and elsewhere.
    (
        Some(ONE),
        "goto 9\nview\nview a\nview --at 1 a\nview --at 14 b\nview b doc.get(\"l\")\nview --at 14 b doc.get(\"l\")\nview --at 14 b doc.get(\"l\").idx(1)\nview a doc.keys\nview a doc\nstate --at 1 b\nstate --at 2\nbrief a\nbrief --at 14 b\neval a doc.get(\"a\").values\neval --at 13 a x\neval a x\neval a doc.get(\"a\")\nwhere\n",
        &[
            "{\"commands\":11,\"events\":16,\"given\":0,\"replicas\":2}",
            "{\"at\":9,\"event\":\"a.done\"}",
            "[{\"doc\":{\"a\":{\"!conflict\":{\"values\":[[\"1@a\",1],[\"1@b\",\"x\"]]}}},\"name\":\"a\"},{\"doc\":{\"a\":{\"!conflict\":{\"values\":[[\"1@a\",1],[\"1@b\",\"x\"]]}}},\"name\":\"b\"}]",
            "{\"doc\":{\"a\":{\"!conflict\":{\"values\":[[\"1@a\",1],[\"1@b\",\"x\"]]}}},\"name\":\"a\"}",
            "{\"doc\":{\"a\":1},\"name\":\"a\"}",
            "{\"doc\":{\"a\":{\"!conflict\":{\"values\":[[\"1@a\",1],[\"1@b\",\"x\"]]}},\"l\":[]},\"name\":\"b\"}",
            "{\"name\":\"b\"}",
            "{\"doc\":[],\"name\":\"b\"}",
            "{\"refused\":{\"name\":\"PastEnd\",\"number\":26}}",
            "{\"keys\":[\"a\"]}",
            "{\"doc\":{\"a\":{\"!conflict\":{\"values\":[[\"1@a\",1],[\"1@b\",\"x\"]]}}},\"name\":\"a\"}",
            "{\"acted\":false,\"left\":6,\"name\":\"b\",\"ops\":[],\"queue\":[],\"recv\":[],\"send\":[],\"tree\":{},\"vars\":{}}",
            "[{\"acted\":false,\"left\":4,\"name\":\"a\",\"ops\":[\"1@a\"],\"queue\":[\"1@a\"],\"recv\":[],\"send\":[],\"tree\":{\"mapT(doc)\":{\"pres(\\\"a\\\")\":[\"1@a\"],\"regT(\\\"a\\\")\":{\"1@a\":{\"n\":\"1\"}}},\"pres(doc)\":[\"1@a\"]},\"vars\":{}},{\"acted\":false,\"left\":5,\"name\":\"b\",\"ops\":[\"1@b\"],\"queue\":[\"1@b\"],\"recv\":[],\"send\":[],\"tree\":{\"mapT(doc)\":{\"pres(\\\"a\\\")\":[\"1@b\"],\"regT(\\\"a\\\")\":{\"1@b\":\"x\"}},\"pres(doc)\":[\"1@b\"]},\"vars\":{}}]",
            "{\"acted\":false,\"left\":3,\"name\":\"a\",\"ops\":[\"1@a\",\"1@b\"],\"queue\":[\"1@a\"],\"recv\":[\"1@b\"],\"send\":[\"1@a\"],\"vars\":{}}",
            "{\"acted\":true,\"left\":3,\"name\":\"b\",\"ops\":[\"1@a\",\"1@b\",\"2@b\"],\"queue\":[\"1@b\",\"2@b\"],\"recv\":[\"1@a\"],\"send\":[\"1@b\",\"2@b\"],\"vars\":{}}",
            "{\"values\":[[\"1@a\",{\"n\":\"1\"}],[\"1@b\",\"x\"]]}",
            "{\"cursor\":[\"mapT(doc)\",\"\\\"a\\\"\"]}",
            "{\"refused\":{\"name\":\"UnboundVariable\",\"number\":22}}",
            "{\"cursor\":[\"mapT(doc)\",\"\\\"a\\\"\"]}",
            "{\"at\":9,\"event\":\"a.done\",\"of\":16}",
        ],
    ),
];

const REFUSED_LOOKS: &[Row<'static>] = &[
    // Looks that are refused, in their order.
    (
        Some(ONE),
        "view z\nview --at 99 z\nview --at 99 a\nview --at -1 a\nview --at 1\nview --at 1 a b c\nview --at -0 a\nview --at x a\nstate --at 99\nstate a b\nbrief\nbrief z\nbrief --at 15 a\neval a\neval z doc\neval a doc..\neval --at 99 a doc..\neval --at 99 a doc\neval a doc.get(\"n\").get(\"m\")\n",
        &[
            "{\"commands\":11,\"events\":16,\"given\":0,\"replicas\":2}",
            "{\"refused\":{\"name\":\"UnknownReplica\",\"number\":18}}",
            "{\"refused\":{\"name\":\"UnknownReplica\",\"number\":18}}",
            "{\"refused\":{\"name\":\"PastSchedule\",\"number\":52}}",
            "{\"refused\":{\"name\":\"AtStart\",\"number\":50}}",
            "[{\"doc\":{\"a\":1},\"name\":\"a\"},{\"name\":\"b\"}]",
            "{\"refused\":{\"column\":3,\"end\":3,\"line\":1,\"name\":\"Unexpected\",\"number\":7,\"offset\":2}}",
            "{\"refused\":{\"name\":\"BadLine\",\"number\":58}}",
            "{\"refused\":{\"name\":\"BadLine\",\"number\":58}}",
            "{\"refused\":{\"name\":\"PastSchedule\",\"number\":52}}",
            "{\"refused\":{\"name\":\"BadLine\",\"number\":58}}",
            "{\"refused\":{\"name\":\"BadLine\",\"number\":58}}",
            "{\"refused\":{\"name\":\"UnknownReplica\",\"number\":18}}",
            "{\"acted\":false,\"left\":1,\"name\":\"a\",\"ops\":[\"1@a\",\"1@b\",\"2@a\"],\"queue\":[\"1@a\",\"2@a\"],\"recv\":[\"1@b\"],\"send\":[\"1@a\"],\"vars\":{\"x\":{\"cursor\":[\"mapT(doc)\",\"\\\"a\\\"\"]}}}",
            "{\"refused\":{\"column\":1,\"end\":0,\"line\":1,\"name\":\"EndOfText\",\"number\":8,\"offset\":0}}",
            "{\"refused\":{\"name\":\"UnknownReplica\",\"number\":18}}",
            "{\"refused\":{\"column\":5,\"end\":5,\"line\":1,\"name\":\"Unexpected\",\"number\":7,\"offset\":4}}",
            "{\"refused\":{\"column\":5,\"end\":5,\"line\":1,\"name\":\"Unexpected\",\"number\":7,\"offset\":4}}",
            "{\"refused\":{\"name\":\"PastSchedule\",\"number\":52}}",
            "{\"cursor\":[\"mapT(doc)\",\"mapT(\\\"n\\\")\",\"\\\"m\\\"\"]}",
        ],
    ),
];

const JOURNALS: &[Row<'static>] = &[
    // Lines of a journal.
    (
        Some(ONE),
        "event\nevent --at 1\nevent --at 1 --trace\nevent --at 8 --effects\nevent --at 8 --trace --effects\nevent --effects --at 8\nevent --at 15\njournal 0 2\njournal --trace --effects 6 8\njournal 3 3\njournal 3 1\njournal 0 99\njournal -1 2\ngoto 4\nevent\nwhere\n",
        &[
            "{\"commands\":11,\"events\":16,\"given\":0,\"replicas\":2}",
            "{\"start\":true}",
            "{\"command\":\"doc.get(\\\"a\\\") := 1\",\"event\":\"a.exec\",\"kind\":\"exec\",\"number\":1,\"op\":{\"cursor\":[\"mapT(doc)\",\"\\\"a\\\"\"],\"deps\":{},\"id\":\"1@a\",\"mutation\":\"assign\",\"value\":{\"n\":\"1\"}},\"replica\":\"a\"}",
            "{\"command\":\"doc.get(\\\"a\\\") := 1\",\"event\":\"a.exec\",\"kind\":\"exec\",\"number\":1,\"op\":{\"cursor\":[\"mapT(doc)\",\"\\\"a\\\"\"],\"deps\":{},\"id\":\"1@a\",\"mutation\":\"assign\",\"value\":{\"n\":\"1\"}},\"replica\":\"a\",\"rules\":[[0,\"EXEC\"],[1,\"MAKE-ASSIGN\"],[2,\"GET\"],[3,\"DOC\"],[2,\"MAKE-OP\"],[3,\"APPLY-LOCAL\"],[4,\"DESCEND\"],[5,\"CHILD-MAP\"],[5,\"ASSIGN\"],[6,\"CLEAR-NONE\"],[6,\"ADD-ID1\"],[7,\"PRESENCE2\"],[6,\"CHILD-REG\"],[5,\"ADD-ID1\"],[6,\"PRESENCE2\"]]}",
            "{\"effects\":[{\"gained\":[\"1@a\"],\"key\":\"doc\",\"map\":[{\"gained\":[\"1@a\"],\"key\":\"\\\"a\\\"\",\"written\":[[\"1@a\",{\"n\":\"1\"}]]}]}],\"event\":\"b.apply(1, a)\",\"kind\":\"apply\",\"number\":8,\"op\":{\"cursor\":[\"mapT(doc)\",\"\\\"a\\\"\"],\"deps\":{},\"id\":\"1@a\",\"mutation\":\"assign\",\"value\":{\"n\":\"1\"}},\"replica\":\"b\"}",
            "{\"effects\":[{\"gained\":[\"1@a\"],\"key\":\"doc\",\"map\":[{\"gained\":[\"1@a\"],\"key\":\"\\\"a\\\"\",\"written\":[[\"1@a\",{\"n\":\"1\"}]]}]}],\"event\":\"b.apply(1, a)\",\"kind\":\"apply\",\"number\":8,\"op\":{\"cursor\":[\"mapT(doc)\",\"\\\"a\\\"\"],\"deps\":{},\"id\":\"1@a\",\"mutation\":\"assign\",\"value\":{\"n\":\"1\"}},\"replica\":\"b\",\"rules\":[[0,\"APPLY-REMOTE\"],[1,\"DESCEND\"],[2,\"CHILD-GET\"],[2,\"ASSIGN\"],[3,\"CLEAR-REG\"],[3,\"ADD-ID1\"],[4,\"PRESENCE1\"],[3,\"CHILD-GET\"],[2,\"ADD-ID1\"],[3,\"PRESENCE1\"]]}",
            "{\"refused\":{\"name\":\"BadLine\",\"number\":58}}",
            "{\"event\":\"b.done\",\"kind\":\"done\",\"number\":15,\"replica\":\"b\"}",
            "[{\"command\":\"doc.get(\\\"a\\\") := 1\",\"event\":\"a.exec\",\"kind\":\"exec\",\"number\":1,\"op\":{\"cursor\":[\"mapT(doc)\",\"\\\"a\\\"\"],\"deps\":{},\"id\":\"1@a\",\"mutation\":\"assign\",\"value\":{\"n\":\"1\"}},\"replica\":\"a\"},{\"command\":\"doc.get(\\\"a\\\") := \\\"x\\\"\",\"event\":\"b.exec\",\"kind\":\"exec\",\"number\":2,\"op\":{\"cursor\":[\"mapT(doc)\",\"\\\"a\\\"\"],\"deps\":{},\"id\":\"1@b\",\"mutation\":\"assign\",\"value\":\"x\"},\"replica\":\"b\"}]",
            "[{\"effects\":[{\"gained\":[\"1@b\"],\"key\":\"doc\",\"map\":[{\"gained\":[\"1@b\"],\"key\":\"\\\"a\\\"\",\"written\":[[\"1@b\",\"x\"]]}]}],\"event\":\"a.apply(1, b)\",\"kind\":\"apply\",\"number\":7,\"op\":{\"cursor\":[\"mapT(doc)\",\"\\\"a\\\"\"],\"deps\":{},\"id\":\"1@b\",\"mutation\":\"assign\",\"value\":\"x\"},\"replica\":\"a\",\"rules\":[[0,\"APPLY-REMOTE\"],[1,\"DESCEND\"],[2,\"CHILD-GET\"],[2,\"ASSIGN\"],[3,\"CLEAR-REG\"],[3,\"ADD-ID1\"],[4,\"PRESENCE1\"],[3,\"CHILD-GET\"],[2,\"ADD-ID1\"],[3,\"PRESENCE1\"]]},{\"effects\":[{\"gained\":[\"1@a\"],\"key\":\"doc\",\"map\":[{\"gained\":[\"1@a\"],\"key\":\"\\\"a\\\"\",\"written\":[[\"1@a\",{\"n\":\"1\"}]]}]}],\"event\":\"b.apply(1, a)\",\"kind\":\"apply\",\"number\":8,\"op\":{\"cursor\":[\"mapT(doc)\",\"\\\"a\\\"\"],\"deps\":{},\"id\":\"1@a\",\"mutation\":\"assign\",\"value\":{\"n\":\"1\"}},\"replica\":\"b\",\"rules\":[[0,\"APPLY-REMOTE\"],[1,\"DESCEND\"],[2,\"CHILD-GET\"],[2,\"ASSIGN\"],[3,\"CLEAR-REG\"],[3,\"ADD-ID1\"],[4,\"PRESENCE1\"],[3,\"CHILD-GET\"],[2,\"ADD-ID1\"],[3,\"PRESENCE1\"]]}]",
            "[]",
            "[]",
            "{\"refused\":{\"name\":\"PastSchedule\",\"number\":52}}",
            "{\"refused\":{\"name\":\"AtStart\",\"number\":50}}",
            "{\"at\":4,\"event\":\"b.send\"}",
            "{\"event\":\"b.send\",\"kind\":\"send\",\"new\":[\"1@b\"],\"number\":4,\"replica\":\"b\"}",
            "{\"at\":4,\"event\":\"b.send\",\"of\":16}",
        ],
    ),
];

const GIVEN: &[Row<'static>] = &[
    // Given events are at positions up to 0.
    (
        Some(TWO),
        "where\nview --at -3\nview --at -2 p\nview --at 0 q\nview --at -4 p\nevent\nevent --at -3\nevent --at -2 --effects\nevent --at 1\njournal\njournal -3 -1\njournal -1 1\nstep\nback run\nback\nplaces\nprint\nbreak place p doc.get(\"k\")\nrun\nevent --effects\n",
        &[
            "{\"commands\":5,\"events\":4,\"given\":3,\"replicas\":2}",
            "{\"at\":0,\"event\":\"q.take(p, 1, p)\",\"of\":4}",
            "[{\"name\":\"p\"},{\"name\":\"q\"}]",
            "{\"doc\":{\"k\":{\"m\":1}},\"name\":\"p\"}",
            "{\"name\":\"q\"}",
            "{\"refused\":{\"name\":\"AtStart\",\"number\":50}}",
            "{\"event\":\"q.take(p, 1, p)\",\"from\":\"p\",\"given\":true,\"kind\":\"take\",\"new\":[\"1@p\"],\"number\":3,\"replica\":\"q\"}",
            "{\"start\":true}",
            "{\"command\":\"doc.get(\\\"k\\\").get(\\\"m\\\") := 1\",\"effects\":[{\"gained\":[\"1@p\"],\"key\":\"doc\",\"made\":[\"map\"],\"map\":[{\"gained\":[\"1@p\"],\"key\":\"\\\"k\\\"\",\"made\":[\"map\"],\"map\":[{\"gained\":[\"1@p\"],\"key\":\"\\\"m\\\"\",\"made\":[\"register\"],\"shown\":true,\"written\":[[\"1@p\",{\"n\":\"1\"}]]}],\"shown\":true}],\"shown\":true}],\"event\":\"p.exec\",\"given\":true,\"kind\":\"exec\",\"number\":1,\"op\":{\"cursor\":[\"mapT(doc)\",\"mapT(\\\"k\\\")\",\"\\\"m\\\"\"],\"deps\":{},\"id\":\"1@p\",\"mutation\":\"assign\",\"value\":{\"n\":\"1\"}},\"replica\":\"p\"}",
            "{\"event\":\"q.apply(1, p)\",\"kind\":\"apply\",\"number\":1,\"op\":{\"cursor\":[\"mapT(doc)\",\"mapT(\\\"k\\\")\",\"\\\"m\\\"\"],\"deps\":{},\"id\":\"1@p\",\"mutation\":\"assign\",\"value\":{\"n\":\"1\"}},\"replica\":\"q\"}",
            "[{\"command\":\"doc.get(\\\"k\\\").get(\\\"m\\\") := 1\",\"event\":\"p.exec\",\"given\":true,\"kind\":\"exec\",\"number\":1,\"op\":{\"cursor\":[\"mapT(doc)\",\"mapT(\\\"k\\\")\",\"\\\"m\\\"\"],\"deps\":{},\"id\":\"1@p\",\"mutation\":\"assign\",\"value\":{\"n\":\"1\"}},\"replica\":\"p\"},{\"event\":\"p.send\",\"given\":true,\"kind\":\"send\",\"new\":[\"1@p\"],\"number\":2,\"replica\":\"p\"},{\"event\":\"q.take(p, 1, p)\",\"from\":\"p\",\"given\":true,\"kind\":\"take\",\"new\":[\"1@p\"],\"number\":3,\"replica\":\"q\"},{\"event\":\"q.apply(1, p)\",\"kind\":\"apply\",\"number\":1,\"op\":{\"cursor\":[\"mapT(doc)\",\"mapT(\\\"k\\\")\",\"\\\"m\\\"\"],\"deps\":{},\"id\":\"1@p\",\"mutation\":\"assign\",\"value\":{\"n\":\"1\"}},\"replica\":\"q\"},{\"cause\":\"AtYield\",\"event\":\"q.exec\",\"kind\":\"exec\",\"number\":2,\"replica\":\"q\",\"stuck\":31}]",
            "[{\"command\":\"doc.get(\\\"k\\\").get(\\\"m\\\") := 1\",\"event\":\"p.exec\",\"given\":true,\"kind\":\"exec\",\"number\":1,\"op\":{\"cursor\":[\"mapT(doc)\",\"mapT(\\\"k\\\")\",\"\\\"m\\\"\"],\"deps\":{},\"id\":\"1@p\",\"mutation\":\"assign\",\"value\":{\"n\":\"1\"}},\"replica\":\"p\"},{\"event\":\"p.send\",\"given\":true,\"kind\":\"send\",\"new\":[\"1@p\"],\"number\":2,\"replica\":\"p\"}]",
            "[{\"event\":\"q.take(p, 1, p)\",\"from\":\"p\",\"given\":true,\"kind\":\"take\",\"new\":[\"1@p\"],\"number\":3,\"replica\":\"q\"},{\"event\":\"q.apply(1, p)\",\"kind\":\"apply\",\"number\":1,\"op\":{\"cursor\":[\"mapT(doc)\",\"mapT(\\\"k\\\")\",\"\\\"m\\\"\"],\"deps\":{},\"id\":\"1@p\",\"mutation\":\"assign\",\"value\":{\"n\":\"1\"}},\"replica\":\"q\"}]",
            "{\"at\":1,\"event\":\"q.apply(1, p)\"}",
            "{\"at\":0,\"event\":\"q.take(p, 1, p)\",\"start\":true}",
            "{\"refused\":{\"name\":\"AtStart\",\"number\":50}}",
            "[{\"end\":86,\"items\":[[23,49],[51,56],[58,77],[79,84]],\"kind\":\"replica\",\"name\":\"p\",\"start\":11},{\"end\":106,\"items\":[[99,104]],\"kind\":\"replica\",\"name\":\"q\",\"start\":87},{\"end\":148,\"items\":[[115,121],[123,129],[131,146]],\"kind\":\"given\",\"start\":107},{\"end\":199,\"items\":[[160,173],[175,181],[183,189],[191,197]],\"kind\":\"schedule\",\"start\":149}]",
            "\"jsoncrdt 2\\nreplica p {\\n  doc.get(\\\"k\\\").get(\\\"m\\\") := 1;\\n  yield;\\n  doc.get(\\\"k\\\").delete;\\n  yield;\\n}\\nreplica q {\\n  yield;\\n}\\ngiven {\\n  p.exec;\\n  p.send;\\n  q.take(p, 1, p);\\n}\\nschedule {\\n  q.apply(1, p);\\n  q.exec;\\n  p.done;\\n  p.exec;\\n}\\n\"",
            "{\"set\":1}",
            "{\"at\":1,\"event\":\"q.apply(1, p)\",\"stuck\":{\"cause\":\"AtYield\",\"event\":\"q.exec\",\"kind\":\"exec\",\"number\":2,\"replica\":\"q\",\"stuck\":31}}",
            "{\"effects\":[{\"gained\":[\"1@p\"],\"key\":\"doc\",\"made\":[\"map\"],\"map\":[{\"gained\":[\"1@p\"],\"key\":\"\\\"k\\\"\",\"made\":[\"map\"],\"map\":[{\"gained\":[\"1@p\"],\"key\":\"\\\"m\\\"\",\"made\":[\"register\"],\"shown\":true,\"written\":[[\"1@p\",{\"n\":\"1\"}]]}],\"shown\":true}],\"shown\":true}],\"event\":\"q.apply(1, p)\",\"kind\":\"apply\",\"number\":1,\"op\":{\"cursor\":[\"mapT(doc)\",\"mapT(\\\"k\\\")\",\"\\\"m\\\"\"],\"deps\":{},\"id\":\"1@p\",\"mutation\":\"assign\",\"value\":{\"n\":\"1\"}},\"replica\":\"q\"}",
        ],
    ),
];

const GIVEN_STUCK: &[Row<'static>] = &[
    // A given event that is stuck.
    (
        Some(STUCK),
        "where\nstep\nview\nview --at -3 p\nview --at -2 p\nview --at -1 p\nview --at 9 p\nview --at -9 p\nview z\nevent --at -3\nevent --at -2\nevent --at -1\nevent --at 9\njournal\njournal -3 -2\njournal 0 1\njournal 0 9\nprint\nplaces\nstate z\nstate p\nbreak rule NONE\nbreak replica z\nbreak op 1@z\nbreak place p x.\nact p.fly\nact p.send\ncompare p z\neval --at -2 p doc.get(\"a\")\neval --at -2 p doc..\nweave 1 2\nbreaks\nback run\nscenario 3\nxyz\nquit\n",
        &[
            "{\"commands\":2,\"events\":1,\"given\":3,\"replicas\":1,\"stuck\":{\"cause\":\"NotActed\",\"event\":\"p.done\",\"given\":true,\"kind\":\"done\",\"number\":2,\"replica\":\"p\",\"stuck\":33}}",
            "{\"refused\":{\"name\":\"GivenStuck\",\"number\":44,\"stuck\":{\"cause\":\"NotActed\",\"event\":\"p.done\",\"given\":true,\"kind\":\"done\",\"number\":2,\"replica\":\"p\",\"stuck\":33}}}",
            "{\"refused\":{\"name\":\"GivenStuck\",\"number\":44,\"stuck\":{\"cause\":\"NotActed\",\"event\":\"p.done\",\"given\":true,\"kind\":\"done\",\"number\":2,\"replica\":\"p\",\"stuck\":33}}}",
            "{\"refused\":{\"name\":\"GivenStuck\",\"number\":44,\"stuck\":{\"cause\":\"NotActed\",\"event\":\"p.done\",\"given\":true,\"kind\":\"done\",\"number\":2,\"replica\":\"p\",\"stuck\":33}}}",
            "{\"name\":\"p\"}",
            "{\"doc\":1,\"name\":\"p\"}",
            "{\"refused\":{\"name\":\"GivenStuck\",\"number\":44,\"stuck\":{\"cause\":\"NotActed\",\"event\":\"p.done\",\"given\":true,\"kind\":\"done\",\"number\":2,\"replica\":\"p\",\"stuck\":33}}}",
            "{\"refused\":{\"name\":\"PastSchedule\",\"number\":52}}",
            "{\"refused\":{\"name\":\"AtStart\",\"number\":50}}",
            "{\"refused\":{\"name\":\"UnknownReplica\",\"number\":18}}",
            "{\"start\":true}",
            "{\"command\":\"doc := 1\",\"event\":\"p.exec\",\"given\":true,\"kind\":\"exec\",\"number\":1,\"op\":{\"cursor\":[\"doc\"],\"deps\":{},\"id\":\"1@p\",\"mutation\":\"assign\",\"value\":{\"n\":\"1\"}},\"replica\":\"p\"}",
            "{\"refused\":{\"name\":\"GivenStuck\",\"number\":44,\"stuck\":{\"cause\":\"NotActed\",\"event\":\"p.done\",\"given\":true,\"kind\":\"done\",\"number\":2,\"replica\":\"p\",\"stuck\":33}}}",
            "{\"refused\":{\"name\":\"PastSchedule\",\"number\":52}}",
            "[{\"command\":\"doc := 1\",\"event\":\"p.exec\",\"given\":true,\"kind\":\"exec\",\"number\":1,\"op\":{\"cursor\":[\"doc\"],\"deps\":{},\"id\":\"1@p\",\"mutation\":\"assign\",\"value\":{\"n\":\"1\"}},\"replica\":\"p\"},{\"cause\":\"NotActed\",\"event\":\"p.done\",\"given\":true,\"kind\":\"done\",\"number\":2,\"replica\":\"p\",\"stuck\":33}]",
            "[{\"command\":\"doc := 1\",\"event\":\"p.exec\",\"given\":true,\"kind\":\"exec\",\"number\":1,\"op\":{\"cursor\":[\"doc\"],\"deps\":{},\"id\":\"1@p\",\"mutation\":\"assign\",\"value\":{\"n\":\"1\"}},\"replica\":\"p\"}]",
            "[]",
            "{\"refused\":{\"name\":\"PastSchedule\",\"number\":52}}",
            "\"jsoncrdt 2\\nreplica p {\\n  doc := 1;\\n  yield;\\n}\\ngiven {\\n  p.exec;\\n  p.done;\\n  p.exec;\\n}\\nschedule {\\n  p.send;\\n}\\n\"",
            "[{\"end\":40,\"items\":[[23,31],[33,38]],\"kind\":\"replica\",\"name\":\"p\",\"start\":11},{\"end\":73,\"items\":[[49,55],[57,63],[65,71]],\"kind\":\"given\",\"start\":41},{\"end\":93,\"items\":[[85,91]],\"kind\":\"schedule\",\"start\":74}]",
            "{\"refused\":{\"name\":\"UnknownReplica\",\"number\":18}}",
            "{\"refused\":{\"name\":\"GivenStuck\",\"number\":44,\"stuck\":{\"cause\":\"NotActed\",\"event\":\"p.done\",\"given\":true,\"kind\":\"done\",\"number\":2,\"replica\":\"p\",\"stuck\":33}}}",
            "{\"refused\":{\"name\":\"BadLine\",\"number\":58}}",
            "{\"refused\":{\"name\":\"UnknownReplica\",\"number\":18}}",
            "{\"refused\":{\"name\":\"UnknownReplica\",\"number\":18}}",
            "{\"refused\":{\"column\":3,\"end\":2,\"line\":1,\"name\":\"EndOfText\",\"number\":8,\"offset\":2}}",
            "{\"refused\":{\"column\":3,\"end\":5,\"line\":1,\"name\":\"Unexpected\",\"number\":7,\"offset\":2}}",
            "{\"refused\":{\"name\":\"GivenStuck\",\"number\":44,\"stuck\":{\"cause\":\"NotActed\",\"event\":\"p.done\",\"given\":true,\"kind\":\"done\",\"number\":2,\"replica\":\"p\",\"stuck\":33}}}",
            "{\"refused\":{\"name\":\"UnknownReplica\",\"number\":18}}",
            "{\"cursor\":[\"mapT(doc)\",\"\\\"a\\\"\"]}",
            "{\"refused\":{\"column\":5,\"end\":5,\"line\":1,\"name\":\"Unexpected\",\"number\":7,\"offset\":4}}",
            "{\"refused\":{\"name\":\"GivenStuck\",\"number\":44,\"stuck\":{\"cause\":\"NotActed\",\"event\":\"p.done\",\"given\":true,\"kind\":\"done\",\"number\":2,\"replica\":\"p\",\"stuck\":33}}}",
            "{\"refused\":{\"name\":\"GivenStuck\",\"number\":44,\"stuck\":{\"cause\":\"NotActed\",\"event\":\"p.done\",\"given\":true,\"kind\":\"done\",\"number\":2,\"replica\":\"p\",\"stuck\":33}}}",
            "{\"refused\":{\"name\":\"GivenStuck\",\"number\":44,\"stuck\":{\"cause\":\"NotActed\",\"event\":\"p.done\",\"given\":true,\"kind\":\"done\",\"number\":2,\"replica\":\"p\",\"stuck\":33}}}",
            "{\"refused\":{\"column\":1,\"end\":3,\"line\":1,\"name\":\"NoHeader\",\"number\":14,\"offset\":0}}",
            "{\"refused\":{\"name\":\"BadLine\",\"number\":58}}",
            "{\"quit\":true}",
        ],
    ),
];

const LISTS: &[Row<'static>] = &[
    // An event that is stuck on the way.
    (
        Some(LATE),
        "goto end\nwhere\nview --at 4 a\nevent --at 4\nevent --at 1\njournal\nrun\nstep\n",
        &[
            "{\"commands\":3,\"events\":4,\"given\":0,\"replicas\":1}",
            "{\"at\":3,\"event\":\"a.send\",\"stuck\":{\"cause\":\"AtYield\",\"event\":\"a.exec\",\"kind\":\"exec\",\"number\":4,\"replica\":\"a\",\"stuck\":31}}",
            "{\"at\":3,\"event\":\"a.send\",\"of\":4}",
            "{\"at\":3,\"event\":\"a.send\",\"stuck\":{\"cause\":\"AtYield\",\"event\":\"a.exec\",\"kind\":\"exec\",\"number\":4,\"replica\":\"a\",\"stuck\":31}}",
            "{\"at\":3,\"event\":\"a.send\",\"stuck\":{\"cause\":\"AtYield\",\"event\":\"a.exec\",\"kind\":\"exec\",\"number\":4,\"replica\":\"a\",\"stuck\":31}}",
            "{\"command\":\"let x = doc.get(\\\"a\\\")\",\"event\":\"a.exec\",\"kind\":\"exec\",\"number\":1,\"replica\":\"a\"}",
            "[{\"command\":\"let x = doc.get(\\\"a\\\")\",\"event\":\"a.exec\",\"kind\":\"exec\",\"number\":1,\"replica\":\"a\"},{\"command\":\"doc.get(\\\"a\\\") := 1\",\"event\":\"a.exec\",\"kind\":\"exec\",\"number\":2,\"op\":{\"cursor\":[\"mapT(doc)\",\"\\\"a\\\"\"],\"deps\":{},\"id\":\"1@a\",\"mutation\":\"assign\",\"value\":{\"n\":\"1\"}},\"replica\":\"a\"},{\"event\":\"a.send\",\"kind\":\"send\",\"new\":[\"1@a\"],\"number\":3,\"replica\":\"a\"},{\"cause\":\"AtYield\",\"event\":\"a.exec\",\"kind\":\"exec\",\"number\":4,\"replica\":\"a\",\"stuck\":31}]",
            "{\"at\":3,\"event\":\"a.send\",\"stuck\":{\"cause\":\"AtYield\",\"event\":\"a.exec\",\"kind\":\"exec\",\"number\":4,\"replica\":\"a\",\"stuck\":31}}",
            "{\"at\":3,\"event\":\"a.send\",\"stuck\":{\"cause\":\"AtYield\",\"event\":\"a.exec\",\"kind\":\"exec\",\"number\":4,\"replica\":\"a\",\"stuck\":31}}",
        ],
    ),
    // Where blocks and what is in them are.
    (
        Some(BLOCKS),
        "places\nact b.send\nplaces\n",
        &[
            "{\"commands\":2,\"events\":2,\"given\":0,\"replicas\":2}",
            "[{\"end\":23,\"items\":[],\"kind\":\"replica\",\"name\":\"a\",\"start\":11},{\"end\":59,\"items\":[[36,45],[47,56]],\"kind\":\"replica\",\"name\":\"b\",\"start\":24},{\"end\":88,\"items\":[[71,77],[79,85]],\"kind\":\"schedule\",\"start\":60}]",
            "{\"at\":0,\"stuck\":{\"cause\":\"NotAtYield\",\"event\":\"b.send\",\"kind\":\"send\",\"number\":1,\"replica\":\"b\",\"stuck\":32}}",
            "[{\"end\":23,\"items\":[],\"kind\":\"replica\",\"name\":\"a\",\"start\":11},{\"end\":59,\"items\":[[36,45],[47,56]],\"kind\":\"replica\",\"name\":\"b\",\"start\":24},{\"end\":88,\"items\":[[71,77],[79,85]],\"kind\":\"schedule\",\"start\":60}]",
        ],
    ),
    // Schedules that seeds give.
    (
        Some(ENDS),
        "weave 0 0\nweave 7 3\nweave 7 100000\nweave 7 100001\nweave 18446744073709551615 9\nweave 18446744073709551616 9\nweave 07 9\nweave 7\nwhere\n",
        &[
            "{\"commands\":5,\"events\":7,\"given\":0,\"replicas\":2}",
            "{\"ends\":[{\"end\":\"limit\",\"made\":0,\"name\":\"a\"},{\"end\":\"limit\",\"made\":0,\"name\":\"b\"}],\"events\":[]}",
            "{\"ends\":[{\"end\":\"limit\",\"made\":2,\"name\":\"a\"},{\"end\":\"limit\",\"made\":1,\"name\":\"b\"}],\"events\":[\"b.send\",\"a.exec\",\"a.send\"]}",
            "{\"ends\":[{\"cause\":\"NoSuchNode\",\"end\":\"stuck\",\"event\":\"a.exec\",\"key\":\"listT(\\\"q\\\")\",\"made\":4,\"name\":\"a\",\"stuck\":25},{\"end\":\"finished\",\"made\":4,\"name\":\"b\"}],\"events\":[\"b.send\",\"a.exec\",\"a.send\",\"a.recv(b)\",\"a.done\",\"b.recv(a)\",\"b.apply(1, a)\",\"b.done\"]}",
            "{\"refused\":{\"name\":\"BadLine\",\"number\":58}}",
            "{\"ends\":[{\"cause\":\"NoSuchNode\",\"end\":\"stuck\",\"event\":\"a.exec\",\"key\":\"listT(\\\"q\\\")\",\"made\":4,\"name\":\"a\",\"stuck\":25},{\"end\":\"finished\",\"made\":4,\"name\":\"b\"}],\"events\":[\"b.send\",\"a.exec\",\"a.send\",\"a.recv(b)\",\"a.done\",\"b.recv(a)\",\"b.apply(1, a)\",\"b.done\"]}",
            "{\"refused\":{\"name\":\"BadLine\",\"number\":58}}",
            "{\"refused\":{\"name\":\"BadLine\",\"number\":58}}",
            "{\"refused\":{\"name\":\"BadLine\",\"number\":58}}",
            "{\"at\":0,\"of\":7}",
        ],
    ),
];

/// The bytes of an input that brings a scenario, if there is one, and then has the requests.
fn input_of(alloc: Global, scenario: Option<&str>, requests: &str) -> Result<String, AllocError> {
    match scenario {
        Some(text) => format!(in alloc; "scenario {}\n{text}{requests}", text.len()),
        None => String::from_str(alloc, requests),
    }
}

/// Expects that the bytes are these lines, and no more.
fn expect_lines(rt: &impl Abort, bytes: &[u8], lines: &[&str]) {
    let mut left = bytes;
    for line in lines {
        assert!(rt; left.starts_with(line.as_bytes()), "{line}");
        left = &left[line.len()..];
        assert!(rt; left.starts_with(b"\n"), "{line}");
        left = &left[1..];
    }
    assert!(rt; left.is_empty());
}

/// Expects that the requests are answered so, each answer flushed by itself, also where each read gives one byte.
fn expect_answers(rt: &impl Abort, alloc: Global, input: &str, answers: &[&str]) {
    let mut source = OneByte::new(Bytes::new(input.as_bytes()));
    let mut out = Taken::new(alloc);
    let done = serve(alloc, &mut source, &mut out);
    assert!(rt; done.is_ok());
    expect_lines(rt, out.as_slice(), answers);
}

/// Expects that the requests of each row are answered so.
fn expect_rows(rt: &impl Abort, alloc: Global, rows: &[Row<'_>]) {
    for (scenario, requests, answers) in rows {
        let Ok(input) = input_of(alloc, *scenario, requests) else {
            assert!(rt; false);
            return;
        };
        expect_answers(rt, alloc, input.as_str(), answers);
    }
}

#[test]
fn moves_are_answered(rt: HostRuntime) {
    expect_rows(&rt, rt.alloc(), MOVES);
}

#[test]
fn breakpoints_are_answered(rt: HostRuntime) {
    expect_rows(&rt, rt.alloc(), BREAKPOINTS);
}

#[test]
fn looks_are_answered(rt: HostRuntime) {
    expect_rows(&rt, rt.alloc(), LOOKS);
}

#[test]
fn refused_looks_are_answered(rt: HostRuntime) {
    expect_rows(&rt, rt.alloc(), REFUSED_LOOKS);
}

#[test]
fn journals_are_answered(rt: HostRuntime) {
    expect_rows(&rt, rt.alloc(), JOURNALS);
}

#[test]
fn given_events_are_answered(rt: HostRuntime) {
    expect_rows(&rt, rt.alloc(), GIVEN);
}

#[test]
fn stuck_given_events_are_answered(rt: HostRuntime) {
    expect_rows(&rt, rt.alloc(), GIVEN_STUCK);
}

#[test]
fn lists_are_answered(rt: HostRuntime) {
    expect_rows(&rt, rt.alloc(), LISTS);
}
