// Builds over elements, beside plain ones: trees, what changes between two builds, and how much of each is built. All numbers are worked
// by hand.
ghost use Rattle.std.specs.Prelude.{◌≡◌, ◌<◌};

use crate::build_steps::run;
use delegates::DelegateTable;
use fx_outside::Steps;
use std::alloc::Global;
use std::marker::Brand;
use std::process::Abort;
use std::sync::ledger::{Blank, Ledger};
use std::test::Fail;

// The components of which the roots below are made.
const PROGRAM: &str =
    r##"{"version":2,"view":[16000,16000],"inherited":[["theme","int",0],["other","int",0]],"components":[
{"name":"Leaf","props":[["p","int"]],"fields":[["n","int",7]],"body":{"w":"SizedBox","width":["+",["prop","p"],["field","n"]]}},
{"name":"Other","props":[["p","int"]],"fields":[["n","int",7]],"body":{"w":"SizedBox","width":["*",["prop","p"],["field","n"]]}},
{"name":"Reader","body":{"w":"SizedBox","width":["inherit","theme"]}},
{"name":"Teller","fields":[["n","int",0]],"body":{"w":"SizedBox","width":["+",["inherit","theme"],["field","n"]]}},
{"name":"Pair","props":[["p","int"]],"fields":[["n","int",0]],"body":{"w":"Row","children":[{"w":"use","name":"Leaf","props":{"p":["prop","p"]}},{"w":"use","name":"Leaf","props":{"p":["field","n"]}}]}},
{"name":"Switch","fields":[["n","int",0]],"body":{"w":"if","cond":["=",["field","n"],0],"then":{"w":"use","name":"Leaf","props":{"p":1}},"else":{"w":"Padding","child":{"w":"use","name":"Leaf","props":{"p":1}}}}},
{"name":"Passes","fields":[["n","int",0]],"slots":["c"],"body":{"w":"Padding","left":["field","n"],"child":{"w":"slot","name":"c"}}},
{"name":"Theme","fields":[["n","int",1]],"slots":["c"],"body":{"w":"Inherit","name":"theme","value":["field","n"],"child":{"w":"slot","name":"c"}}},
{"name":"Many","fields":[["n","int",2]],"body":{"w":"Row","children":[{"w":"each","var":"v","in":["range",["field","n"]],"body":{"w":"use","name":"Leaf","key":["local",["var","v"]],"props":{"p":["var","v"]}}}]}},
{"name":"Wide","fields":[["n","int",0]],"body":{"w":"Column","children":[{"w":"each","var":"v","in":["range",["*",["field","n"],4096]],"body":{"w":"Column","children":[{"w":"each","var":"u","in":["range",16],"body":{"w":"SizedBox"}}]}}]}},
{"name":"D1","slots":["c"],"body":{"w":"Padding","child":{"w":"slot","name":"c"}}},
{"name":"D2","slots":["c"],"body":{"w":"use","name":"D1","slots":{"c":{"w":"use","name":"D1","slots":{"c":{"w":"slot","name":"c"}}}}}},
{"name":"D3","slots":["c"],"body":{"w":"use","name":"D2","slots":{"c":{"w":"use","name":"D2","slots":{"c":{"w":"slot","name":"c"}}}}}},
{"name":"D4","slots":["c"],"body":{"w":"use","name":"D3","slots":{"c":{"w":"use","name":"D3","slots":{"c":{"w":"slot","name":"c"}}}}}},
{"name":"D5","slots":["c"],"body":{"w":"use","name":"D4","slots":{"c":{"w":"use","name":"D4","slots":{"c":{"w":"slot","name":"c"}}}}}},
{"name":"D6","slots":["c"],"body":{"w":"use","name":"D5","slots":{"c":{"w":"use","name":"D5","slots":{"c":{"w":"slot","name":"c"}}}}}},
{"name":"D7","slots":["c"],"body":{"w":"use","name":"D6","slots":{"c":{"w":"use","name":"D6","slots":{"c":{"w":"slot","name":"c"}}}}}},
{"name":"D8","slots":["c"],"body":{"w":"use","name":"D7","slots":{"c":{"w":"use","name":"D7","slots":{"c":{"w":"slot","name":"c"}}}}}}
],"root":{"w":"SizedBox"}}
"##;

// Each history begins with its name. A `root` is the root of the builds that follow; `set` gives the one field of the component with a
// number a value; `mark` marks the component with a number. A build is told by the number that the next new node has, how many components
// are built, and the numbers of its nodes in preorder, or by its `fault`, with which its history ends.
const BUILDS: &str = r##"# nothing changed
root {"w":"use","name":"Pair","props":{"p":3}}
built 7 3 1-6
built 7 0 1-6
built 7 0 1-6
built 7 0 1-6
set 3 9
built 7 1 1-6
built 7 0 1-6
root {"w":"use","name":"Pair","props":{"p":3}}
built 7 0 1-6
# a field is set
root {"w":"use","name":"Pair","props":{"p":3}}
built 7 3 1-6
set 1 5
built 7 2 1-6
set 3 9
built 7 1 1-6
set 3 9
built 7 1 1-6
set 1 5
built 7 1 1-6
# marks
root {"w":"use","name":"Pair","props":{"p":3}}
built 7 3 1-6
mark 5
built 7 1 1-6
set 1 6
mark 5
built 7 2 1-6
mark 1
built 7 1 1-6
mark 1
mark 3
mark 5
built 7 3 1-6
mark 2
built 7 0 1-6
# a value that is read
root {"w":"Inherit","name":"theme","value":1,"child":{"w":"Row","children":[{"w":"use","name":"Reader"},{"w":"use","name":"Leaf","props":{"p":2}},{"w":"Padding","child":{"w":"use","name":"Reader"}}]}}
built 10 3 1-9
root {"w":"Inherit","name":"theme","value":2,"child":{"w":"Row","children":[{"w":"use","name":"Reader"},{"w":"use","name":"Leaf","props":{"p":2}},{"w":"Padding","child":{"w":"use","name":"Reader"}}]}}
built 10 2 1-9
root {"w":"Inherit","name":"theme","value":2,"child":{"w":"Row","children":[{"w":"use","name":"Reader"},{"w":"use","name":"Leaf","props":{"p":2}},{"w":"Padding","child":{"w":"use","name":"Reader"}}]}}
built 10 0 1-9
set 5 1
built 10 1 1-9
# a value that isn't read
root {"w":"Inherit","name":"other","value":1,"child":{"w":"Row","children":[{"w":"use","name":"Reader"},{"w":"use","name":"Leaf","props":{"p":2}}]}}
built 7 2 1-6
root {"w":"Inherit","name":"other","value":2,"child":{"w":"Row","children":[{"w":"use","name":"Reader"},{"w":"use","name":"Leaf","props":{"p":2}}]}}
built 7 0 1-6
# a nearer provider
root {"w":"Inherit","name":"theme","value":1,"child":{"w":"Inherit","name":"theme","value":5,"child":{"w":"Row","children":[{"w":"use","name":"Reader"}]}}}
built 6 1 1-5
root {"w":"Inherit","name":"theme","value":2,"child":{"w":"Inherit","name":"theme","value":5,"child":{"w":"Row","children":[{"w":"use","name":"Reader"}]}}}
built 6 0 1-5
root {"w":"Inherit","name":"theme","value":2,"child":{"w":"Inherit","name":"theme","value":6,"child":{"w":"Row","children":[{"w":"use","name":"Reader"}]}}}
built 6 1 1-5
# a value that is a field
root {"w":"use","name":"Theme","slots":{"c":{"w":"Row","children":[{"w":"use","name":"Reader"},{"w":"use","name":"Leaf","props":{"p":2}},{"w":"use","name":"Teller"}]}}}
built 10 4 1-9
set 1 3
built 10 3 1-9
set 8 5
built 10 1 1-9
set 1 3
built 10 1 1-9
# keys in another order
root {"w":"Row","children":[{"w":"use","name":"Leaf","key":["local",1],"props":{"p":1}},{"w":"use","name":"Leaf","key":["local",2],"props":{"p":2}},{"w":"use","name":"Leaf","key":["local",3],"props":{"p":3}}]}
built 8 3 1-7
set 4 50
built 8 1 1-7
root {"w":"Row","children":[{"w":"use","name":"Leaf","key":["local",3],"props":{"p":3}},{"w":"use","name":"Leaf","key":["local",1],"props":{"p":1}},{"w":"use","name":"Leaf","key":["local",2],"props":{"p":2}}]}
built 8 0 1 6-7 2-5
root {"w":"Row","children":[{"w":"use","name":"Leaf","key":["local",2],"props":{"p":2}},{"w":"use","name":"Leaf","key":["local",3],"props":{"p":3}}]}
built 8 0 1 4-7
root {"w":"Row","children":[{"w":"use","name":"Leaf","key":["local",1],"props":{"p":1}},{"w":"use","name":"Leaf","key":["local",2],"props":{"p":2}},{"w":"use","name":"Leaf","key":["local",3],"props":{"p":3}}]}
built 10 1 1 8-9 4-7
# no keys
root {"w":"Row","children":[{"w":"use","name":"Leaf","props":{"p":1}},{"w":"use","name":"Leaf","props":{"p":2}},{"w":"use","name":"Leaf","props":{"p":3}}]}
built 8 3 1-7
set 2 1
built 8 1 1-7
root {"w":"Row","children":[{"w":"use","name":"Leaf","props":{"p":2}},{"w":"use","name":"Leaf","props":{"p":3}}]}
built 8 2 1-5
root {"w":"Row","children":[{"w":"use","name":"Leaf","props":{"p":2}},{"w":"SizedBox"},{"w":"use","name":"Leaf","props":{"p":3}}]}
built 9 0 1-3 8 4-5
# another type at a place
root {"w":"Row","children":[{"w":"use","name":"Leaf","props":{"p":1}},{"w":"use","name":"Leaf","props":{"p":2}}]}
built 6 2 1-5
set 2 50
built 6 1 1-5
root {"w":"Row","children":[{"w":"use","name":"Other","props":{"p":1}},{"w":"use","name":"Leaf","props":{"p":2}}]}
built 8 1 1 6-7 4-5
root {"w":"Row","children":[{"w":"use","name":"Leaf","props":{"p":1}},{"w":"use","name":"Leaf","props":{"p":2}}]}
built 10 1 1 8-9 4-5
# an output of another kind
root {"w":"Padding","child":{"w":"use","name":"Switch"}}
built 5 2 1-4
set 3 20
built 5 1 1-4
set 2 1
built 8 2 1-2 5-7
set 2 2
built 8 1 1-2 5-7
set 2 0
built 10 2 1-2 8-9
# a global key between providers
root {"w":"Row","children":[{"w":"Inherit","name":"theme","value":1,"child":{"w":"Padding","child":{"w":"use","name":"Teller","key":["global","g"]}}},{"w":"Inherit","name":"theme","value":2,"child":{"w":"Padding"}}]}
built 8 1 1-7
set 4 30
built 8 1 1-7
root {"w":"Row","children":[{"w":"Inherit","name":"theme","value":1,"child":{"w":"Padding"}},{"w":"Inherit","name":"theme","value":2,"child":{"w":"Padding","child":{"w":"use","name":"Teller","key":["global","g"]}}}]}
built 8 1 1-3 6-7 4-5
root {"w":"Row","children":[{"w":"Inherit","name":"theme","value":2,"child":{"w":"Padding","child":{"w":"use","name":"Teller","key":["global","g"]}}},{"w":"Inherit","name":"theme","value":2,"child":{"w":"Padding"}}]}
built 8 0 1-7
# a reader below a global key
root {"w":"Row","children":[{"w":"Inherit","name":"theme","value":1,"child":{"w":"Padding","child":{"w":"ClipRect","key":["global","g"],"child":{"w":"use","name":"Reader"}}}},{"w":"Inherit","name":"theme","value":2,"child":{"w":"Padding"}}]}
built 9 1 1-8
root {"w":"Row","children":[{"w":"Inherit","name":"theme","value":1,"child":{"w":"Padding"}},{"w":"Inherit","name":"theme","value":2,"child":{"w":"Padding","child":{"w":"ClipRect","key":["global","g"],"child":{"w":"use","name":"Reader"}}}}]}
built 9 1 1-3 7-8 4-6
root {"w":"Row","children":[{"w":"Inherit","name":"theme","value":2,"child":{"w":"Padding","child":{"w":"ClipRect","key":["global","g"],"child":{"w":"use","name":"Reader"}}}},{"w":"Inherit","name":"theme","value":2,"child":{"w":"Padding"}}]}
built 9 0 1-8
# a parent and a child change places
root {"w":"Padding","key":["global","a"],"child":{"w":"ClipRect","key":["global","b"],"child":{"w":"use","name":"Leaf","props":{"p":1}}}}
built 5 1 1-4
root {"w":"ClipRect","key":["global","b"],"child":{"w":"Padding","key":["global","a"],"child":{"w":"use","name":"Leaf","props":{"p":1}}}}
built 7 1 2 1 5-6
# a global key is claimed twice
root {"w":"Row","children":[{"w":"Padding","child":{"w":"use","name":"Leaf","key":["global","g"],"props":{"p":1}}},{"w":"Padding"}]}
built 6 1 1-5
root {"w":"Row","children":[{"w":"Padding"},{"w":"Padding","child":{"w":"use","name":"Leaf","key":["global","g"],"props":{"p":1}}}]}
built 6 0 1-2 5 3-4
root {"w":"Row","children":[{"w":"Padding","child":{"w":"use","name":"Leaf","key":["global","g"],"props":{"p":1}}},{"w":"Padding","child":{"w":"use","name":"Leaf","key":["global","g"],"props":{"p":1}}}]}
fault repeated-global-key g
# a new global key twice
root {"w":"Row","children":[{"w":"Padding","child":{"w":"use","name":"Leaf","key":["global","g"],"props":{"p":1}}},{"w":"Padding","child":{"w":"use","name":"Other","key":["global","g"],"props":{"p":1}}}]}
fault repeated-global-key g
# a global key of another type
root {"w":"Row","children":[{"w":"use","name":"Leaf","key":["global","g"],"props":{"p":1}}]}
built 4 1 1-3
root {"w":"Row","children":[{"w":"use","name":"Other","key":["global","g"],"props":{"p":1}}]}
built 6 1 1 4-5
root {"w":"Row","children":[{"w":"use","name":"Leaf","key":["global","g"],"props":{"p":1}}]}
built 8 1 1 6-7
# siblings with one key
root {"w":"Row","children":[{"w":"use","name":"Leaf","key":["local",5],"props":{"p":1}},{"w":"use","name":"Leaf","key":["local",6],"props":{"p":2}}]}
built 6 2 1-5
root {"w":"Row","children":[{"w":"use","name":"Leaf","key":["local",5],"props":{"p":1}},{"w":"use","name":"Leaf","key":["local",6],"props":{"p":2}},{"w":"use","name":"Leaf","key":["local",5],"props":{"p":3}}]}
fault repeated-sibling-key 5
# a fault above another
root {"w":"Row","children":[{"w":"Row","key":["local",1],"children":[{"w":"use","name":"Leaf","key":["local",5],"props":{"p":1}},{"w":"use","name":"Leaf","key":["local",5],"props":{"p":2}}]},{"w":"Padding","key":["local",1]}]}
fault repeated-sibling-key 1
# another root
root {"w":"Padding","child":{"w":"use","name":"Leaf","props":{"p":1}}}
built 4 1 1-3
root {"w":"ClipRect","child":{"w":"use","name":"Leaf","props":{"p":1}}}
built 7 1 4-6
root {"w":"ClipRect","child":{"w":"use","name":"Leaf","props":{"p":2}}}
built 7 1 4-6
root {"w":"Padding","child":{"w":"use","name":"Leaf","props":{"p":2}}}
built 10 1 7-9
# contents of a slot
root {"w":"use","name":"Passes","slots":{"c":{"w":"use","name":"Leaf","props":{"p":1}}}}
built 5 2 1-4
set 1 4
built 5 1 1-4
root {"w":"use","name":"Passes","slots":{"c":{"w":"use","name":"Leaf","props":{"p":2}}}}
built 5 2 1-4
root {"w":"use","name":"Passes","slots":{"c":{"w":"ClipRect"}}}
built 6 1 1-2 5
# a loop that grows and shrinks
root {"w":"use","name":"Many"}
built 7 3 1-6
set 5 1
built 7 1 1-6
set 1 3
built 9 2 1-8
set 1 1
built 9 1 1-4
set 1 2
built 11 2 1-4 9-10
# an output that is too large comes first
root {"w":"Row","children":[{"w":"Padding","child":{"w":"use","name":"Wide"}},{"w":"Padding","child":{"w":"Row","children":[{"w":"use","name":"Leaf","key":["local",5],"props":{"p":5}},{"w":"use","name":"Leaf","key":["local",6],"props":{"p":6}}]}}]}
built 11 3 1-10
set 3 1
root {"w":"Row","children":[{"w":"Padding","child":{"w":"use","name":"Wide"}},{"w":"Padding","child":{"w":"Row","children":[{"w":"use","name":"Leaf","key":["local",5],"props":{"p":5}},{"w":"use","name":"Leaf","key":["local",5],"props":{"p":5}}]}}]}
fault output-too-large
# an output that is too large comes later
root {"w":"Row","children":[{"w":"Padding","child":{"w":"Row","children":[{"w":"use","name":"Leaf","key":["local",5],"props":{"p":5}},{"w":"use","name":"Leaf","key":["local",6],"props":{"p":6}}]}},{"w":"Padding","child":{"w":"use","name":"Wide"}}]}
built 11 3 1-10
set 9 1
root {"w":"Row","children":[{"w":"Padding","child":{"w":"Row","children":[{"w":"use","name":"Leaf","key":["local",5],"props":{"p":5}},{"w":"use","name":"Leaf","key":["local",5],"props":{"p":5}}]}},{"w":"Padding","child":{"w":"use","name":"Wide"}}]}
fault repeated-sibling-key 5
# as deep as may be
root {"w":"use","name":"D8","slots":{"c":{"w":"use","name":"D6","slots":{"c":{"w":"use","name":"D4","slots":{"c":{"w":"use","name":"D2","slots":{"c":{"w":"use","name":"D2","slots":{"c":{"w":"SizedBox"}}}}}}}}}}}
built 513 339 1-512
built 513 0 1-512
root {"w":"use","name":"D8","slots":{"c":{"w":"use","name":"D6","slots":{"c":{"w":"use","name":"D4","slots":{"c":{"w":"use","name":"D2","slots":{"c":{"w":"use","name":"D2","slots":{"c":{"w":"Padding","child":{"w":"SizedBox"}}}}}}}}}}}}
fault tree-too-large
"##;

fn run_all<L: Ledger>(rt: &impl Abort, alloc: Global, blank: Blank) -> Result<(), Fail>
    requires name { blank.name ≡ L.name }
    requires parts { blank.parts ≡ L.parts }
    requires some { 0 < L.parts }
{
    let table = DelegateTable::new(alloc, Vec::new(alloc))?;
    let mut steps = Steps::<L>::at_zero(blank);
    run(rt, alloc, PROGRAM, BUILDS, &table, &mut steps)
}

#[test]
fn builds_over_elements_are_plain_builds(rt: HostRuntime) -> Result<(), Fail> {
    run_all::<Brand>(&rt, rt.alloc(), Blank::new(1))
}
