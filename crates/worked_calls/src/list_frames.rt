// Frames of roots with lazy lists, beside plain builds: what changes between two frames, and how much of each is built. All numbers are
// worked by hand.
ghost use Rattle.std.specs.Prelude.{◌≡◌, ◌<◌};

use crate::frame_steps::{Counters, run};
use delegates::DelegateTable;
use fx_outside::Steps;
use std::alloc::Global;
use std::marker::Brand;
use std::process::Abort;
use std::sync::ledger::{Blank, Ledger};
use std::test::Fail;

// The components of which the roots below are made.
const PROGRAM: &str =
    r##"{"version":2,"view":[16000,16000],"inherited":[["theme","int",0]],"components":[
{"name":"Leaf","props":[["p","int"]],"fields":[["n","int",7]],"body":{"w":"SizedBox","width":["+",["prop","p"],["field","n"]]}},
{"name":"Other","props":[["p","int"]],"fields":[["n","int",7]],"body":{"w":"SizedBox","width":["*",["prop","p"],["field","n"]]}},
{"name":"Reader","body":{"w":"SizedBox","width":["inherit","theme"]}},
{"name":"Teller","fields":[["n","int",0]],"body":{"w":"SizedBox","width":["+",["inherit","theme"],["field","n"]]}},
{"name":"Feed","fields":[["n","int",3]],"body":{"w":"Viewport","children":[{"w":"SliverLazy","extent":16000,"children":[{"w":"each","var":"v","in":["range",["field","n"]],"body":{"w":"use","name":"Leaf","key":["local",["var","v"]],"props":{"p":["var","v"]}}}]}]}}
],"root":{"w":"SizedBox"}}
"##;

// The lines are those of builds over elements. A line `high` makes the view so high from then on: first it is as high as one item of most
// lists, and one more item is live below it.
const FRAMES: &str = r##"# items leave the live range and come back
root {"w":"Viewport","children":[{"w":"SliverLazy","extent":16000,"children":[{"w":"each","var":"v","in":["range",6],"body":{"w":"use","name":"Leaf","props":{"p":["var","v"]}}}]}]}
built 7 2 1-6
set 3 40
built 7 1 1-6
high 48000
built 11 2 1-10
set 7 50
built 11 1 1-10
high 16000
built 11 0 1-6
high 48000
built 15 2 1-6 11-14
set 11 60
built 15 1 1-6 11-14
built 15 0 1-6 11-14
# a list leaves the view and comes back
root {"w":"Viewport","children":[{"w":"SliverToBox","child":{"w":"SizedBox","height":1000}},{"w":"SliverLazy","extent":16000,"children":[{"w":"each","var":"v","in":["range",3],"body":{"w":"use","name":"Leaf","props":{"p":["var","v"]}}}]}]}
built 9 2 1-8
set 5 9
built 9 1 1-8
root {"w":"Viewport","children":[{"w":"SliverToBox","child":{"w":"SizedBox","height":16000}},{"w":"SliverLazy","extent":16000,"children":[{"w":"each","var":"v","in":["range",3],"body":{"w":"use","name":"Leaf","props":{"p":["var","v"]}}}]}]}
built 9 0 1-4
root {"w":"Viewport","children":[{"w":"SliverToBox","child":{"w":"SizedBox","height":1000}},{"w":"SliverLazy","extent":16000,"children":[{"w":"each","var":"v","in":["range",3],"body":{"w":"use","name":"Leaf","props":{"p":["var","v"]}}}]}]}
built 13 2 1-4 9-12
# items that stay
root {"w":"Viewport","children":[{"w":"SliverLazy","extent":16000,"children":[{"w":"each","var":"v","in":["range",6],"body":{"w":"Keep","child":{"w":"use","name":"Leaf","props":{"p":["var","v"]}}}}]}]}
built 9 2 1-8
set 4 9
built 9 1 1-8
high 48000
built 15 2 1-14
set 10 5
high 16000
built 15 1 1-14
high 48000
built 15 0 1-14
# a lazy list grows and shrinks
root {"w":"use","name":"Feed"}
built 8 3 1-7
set 1 1
built 8 1 1-5
set 1 4
built 10 2 1-5 8-9
set 1 0
built 10 1 1-3
set 1 2
built 14 3 1-3 10-13
# a global key into an item and out of it
root {"w":"Viewport","children":[{"w":"SliverToBox","child":{"w":"Padding","child":{"w":"use","name":"Teller","key":["global","g"]}}},{"w":"Inherit","name":"theme","value":2,"child":{"w":"SliverLazy","extent":16000,"children":[{"w":"Padding"},{"w":"Padding"},{"w":"Padding"}]}}]}
built 10 1 1-9
set 4 30
built 10 1 1-9
root {"w":"Viewport","children":[{"w":"SliverToBox","child":{"w":"Padding"}},{"w":"Inherit","name":"theme","value":2,"child":{"w":"SliverLazy","extent":16000,"children":[{"w":"Padding","child":{"w":"use","name":"Teller","key":["global","g"]}},{"w":"Padding"},{"w":"Padding"}]}}]}
built 10 1 1-3 6-8 4-5 9
root {"w":"Viewport","children":[{"w":"SliverToBox","child":{"w":"Padding","child":{"w":"use","name":"Teller","key":["global","g"]}}},{"w":"Inherit","name":"theme","value":2,"child":{"w":"SliverLazy","extent":16000,"children":[{"w":"Padding"},{"w":"Padding"},{"w":"Padding"}]}}]}
built 10 1 1-9
root {"w":"Viewport","children":[{"w":"SliverToBox","child":{"w":"Padding"}},{"w":"Inherit","name":"theme","value":2,"child":{"w":"SliverLazy","extent":16000,"children":[{"w":"Padding","child":{"w":"use","name":"Teller","key":["global","g"]}},{"w":"Padding"},{"w":"Padding"}]}}]}
built 10 1 1-3 6-8 4-5 9
root {"w":"Viewport","children":[{"w":"SliverToBox","child":{"w":"Padding","top":16000,"child":{"w":"use","name":"Teller","key":["global","g"]}}},{"w":"Inherit","name":"theme","value":2,"child":{"w":"SliverLazy","extent":16000,"children":[{"w":"Padding"},{"w":"Padding"},{"w":"Padding"}]}}]}
built 10 1 1-7
root {"w":"Viewport","children":[{"w":"SliverToBox","child":{"w":"Padding"}},{"w":"Inherit","name":"theme","value":2,"child":{"w":"SliverLazy","extent":16000,"children":[{"w":"Padding","child":{"w":"use","name":"Teller","key":["global","g"]}},{"w":"Padding"},{"w":"Padding"}]}}]}
built 12 1 1-3 6-7 10 4-5 11
# a global key between two lists
root {"w":"Viewport","children":[{"w":"SliverLazy","extent":4000,"children":[{"w":"Padding","child":{"w":"use","name":"Leaf","key":["global","g"],"props":{"p":1}}}]},{"w":"SliverLazy","extent":4000,"children":[{"w":"Padding"}]}]}
built 8 1 1-2 4-6 3 7
root {"w":"Viewport","children":[{"w":"SliverLazy","extent":4000,"children":[{"w":"Padding"}]},{"w":"SliverLazy","extent":4000,"children":[{"w":"Padding","child":{"w":"use","name":"Leaf","key":["global","g"],"props":{"p":1}}}]}]}
built 8 0 1-2 4 3 7 5-6
root {"w":"Viewport","children":[{"w":"SliverLazy","extent":4000,"children":[{"w":"Padding","child":{"w":"use","name":"Leaf","key":["global","g"],"props":{"p":1}}}]},{"w":"SliverLazy","extent":4000,"children":[{"w":"Padding","child":{"w":"use","name":"Leaf","key":["global","g"],"props":{"p":1}}}]}]}
fault repeated-global-key g
# a fault in an item
root {"w":"Viewport","children":[{"w":"SliverLazy","extent":16000,"children":[{"w":"Padding"},{"w":"Padding"},{"w":"Padding"},{"w":"Row","children":[{"w":"use","name":"Leaf","key":["local",5],"props":{"p":5}},{"w":"use","name":"Leaf","key":["local",5],"props":{"p":5}}]}]}]}
built 5 0 1-4
high 48000
fault repeated-sibling-key 5
# a fault of the list
root {"w":"Viewport","children":[{"w":"SliverLazy","extent":16000,"children":[{"w":"use","name":"Leaf","key":["local",5],"props":{"p":1}},{"w":"Padding"},{"w":"Padding"},{"w":"Padding"},{"w":"use","name":"Leaf","key":["local",5],"props":{"p":2}}]}]}
fault repeated-sibling-key 5
# a fault beside one in an item
root {"w":"Viewport","children":[{"w":"SliverLazy","extent":16000,"children":[{"w":"Row","children":[{"w":"use","name":"Leaf","key":["local",5],"props":{"p":5}},{"w":"use","name":"Leaf","key":["local",5],"props":{"p":5}}]}]},{"w":"SliverToBox","child":{"w":"Row","children":[{"w":"use","name":"Leaf","key":["local",6],"props":{"p":6}},{"w":"use","name":"Leaf","key":["local",6],"props":{"p":6}}]}}]}
fault repeated-sibling-key 6
# a fault in items of two lists
root {"w":"Viewport","children":[{"w":"SliverLazy","extent":4000,"children":[{"w":"Row","children":[{"w":"use","name":"Leaf","key":["local",5],"props":{"p":5}},{"w":"use","name":"Leaf","key":["local",5],"props":{"p":5}}]}]},{"w":"SliverLazy","extent":4000,"children":[{"w":"Row","children":[{"w":"use","name":"Leaf","key":["local",6],"props":{"p":6}},{"w":"use","name":"Leaf","key":["local",6],"props":{"p":6}}]}]}]}
fault repeated-sibling-key 5
# a value above a list
root {"w":"Inherit","name":"theme","value":1,"child":{"w":"Viewport","children":[{"w":"SliverLazy","extent":16000,"children":[{"w":"each","var":"v","in":["range",6],"body":{"w":"use","name":"Reader"}}]}]}}
built 8 2 1-7
root {"w":"Inherit","name":"theme","value":2,"child":{"w":"Viewport","children":[{"w":"SliverLazy","extent":16000,"children":[{"w":"each","var":"v","in":["range",6],"body":{"w":"use","name":"Reader"}}]}]}}
built 8 2 1-7
high 48000
built 12 2 1-11
root {"w":"Inherit","name":"theme","value":2,"child":{"w":"Viewport","children":[{"w":"SliverLazy","extent":16000,"children":[{"w":"each","var":"v","in":["range",6],"body":{"w":"use","name":"Reader"}}]}]}}
built 12 0 1-11
# items with keys
root {"w":"Viewport","children":[{"w":"SliverLazy","extent":16000,"children":[{"w":"use","name":"Leaf","key":["local",1],"props":{"p":1}},{"w":"use","name":"Leaf","key":["local",2],"props":{"p":2}},{"w":"use","name":"Leaf","key":["local",3],"props":{"p":3}}]}]}
built 7 2 1-6
root {"w":"Viewport","children":[{"w":"SliverLazy","extent":16000,"children":[{"w":"use","name":"Leaf","key":["local",3],"props":{"p":3}},{"w":"use","name":"Leaf","key":["local",2],"props":{"p":2}},{"w":"use","name":"Leaf","key":["local",1],"props":{"p":1}}]}]}
built 9 1 1-2 7-8 5-6
root {"w":"Viewport","children":[{"w":"SliverLazy","extent":16000,"children":[{"w":"use","name":"Leaf","key":["local",1],"props":{"p":1}},{"w":"use","name":"Leaf","key":["local",2],"props":{"p":2}},{"w":"use","name":"Leaf","key":["local",3],"props":{"p":3}}]}]}
built 11 1 1-2 9-10 5-6
# an item of another type
root {"w":"Viewport","children":[{"w":"SliverLazy","extent":16000,"children":[{"w":"use","name":"Leaf","props":{"p":1}},{"w":"use","name":"Leaf","props":{"p":2}}]}]}
built 7 2 1-6
set 3 9
built 7 1 1-6
root {"w":"Viewport","children":[{"w":"SliverLazy","extent":16000,"children":[{"w":"use","name":"Other","props":{"p":1}},{"w":"use","name":"Leaf","props":{"p":2}}]}]}
built 9 1 1-2 7-8 5-6
"##;

fn run_all<B: Ledger, L: Ledger, P: Ledger>(
    rt: &impl Abort,
    alloc: Global,
    builds: Blank,
    layouts: Blank,
    paints: Blank,
) -> Result<(), Fail>
    requires name { builds.name ≡ B.name }
    requires parts { builds.parts ≡ B.parts }
    requires some { 0 < B.parts }
    requires layout_name { layouts.name ≡ L.name }
    requires layout_parts { layouts.parts ≡ L.parts }
    requires layout_some { 0 < L.parts }
    requires paint_name { paints.name ≡ P.name }
    requires paint_parts { paints.parts ≡ P.parts }
    requires paint_some { 0 < P.parts }
{
    let mut counters = Counters {
        builds: Steps::<B>::at_zero(builds),
        layouts: Steps::<L>::at_zero(layouts),
        paints: Steps::<P>::at_zero(paints),
    };
    let table = DelegateTable::new(alloc, Vec::new(alloc))?;
    run(rt, alloc, PROGRAM, FRAMES, &table, &mut counters)
}

#[test]
fn frames_over_lists_are_plain_builds(rt: HostRuntime) -> Result<(), Fail> {
    run_all::<Brand, Brand, Brand>(&rt, rt.alloc(), Blank::new(1), Blank::new(1), Blank::new(1))
}
