// Laws of programs and sessions of a version.
ghost use Rattle.std.specs.Prelude.{◌≡◌, ℕ, Option, List, [], ◌∷◌, Ok};
ghost use Rattle.delegates.specs.Table.{Plug};
ghost use Rattle.widget_model.specs.Plain.{PlainWidget};
ghost use Rattle.plain_tree.specs.PlainNode.{PlainNode};
ghost use Rattle.plain_tree.specs.Projection.{render_of};
ghost use Rattle.plain_tree.specs.Render.{Render};
ghost use Rattle.program_form.specs.Program.{PlainProgram};
ghost use Rattle.program_form.specs.Template.{PlainTemplate};
ghost use Rattle.program_read.specs.ProgramWalk.{program_of};
ghost use Rattle.program_read.specs.Reading.{read_as};
ghost use Rattle.program_read.specs.TemplateWalk.{template_of};
ghost use Rattle.program_check.specs.Body.{PlainBody};
ghost use Rattle.program_check.specs.Checked.{PlainChecked};
ghost use Rattle.program_check.specs.ProgramCheck.{checked_program, checked_widget};
ghost use Rattle.script_lines.specs.declared.command.Command.{Command};
ghost use Rattle.build_form.specs.Entering.{Blueprint};
ghost use Rattle.build_form.specs.FullBuild.{Screen, built, first_tree, full_build};
ghost use Rattle.build_form.specs.Program.{blueprint_of};
ghost use Rattle.build_form.specs.Step.{Progress, gives};
ghost use Rattle.session_form.specs.Framing.{built_of, top_of};
ghost use Rattle.session_form.specs.Outcome.{state_after};
ghost use Rattle.session_form.specs.State.{SessionState, first_state};
ghost use Rattle.session_form.specs.Step.{step};
ghost use Rattle.fx_expr.specs.declared.values.Value.{Value};
ghost use Rattle.widget_model.specs.Plain.{widgets_of};
ghost use Rattle.versioned_kinds.specs.Lists.{IsNoList, HasNoLists, HasNoListBodies, WidgetHasNoLists, RenderHasNoLists};
ghost use Rattle.versioned_kinds.specs.Widgets.{AllLooksMeet};
ghost use Rattle.versioned_kinds.specs.Versions.{TemplateKeepsTo, BodyKeepsTo, WidgetKeepsTo, TreeKeepsTo, IsOfItsVersion, KeepsToVersion, StateKeepsToVersion};
ghost use Rattle.versioned_kinds.specs.Worked.{Works};

/// Small templates, widgets and trees keep to a version or not as it was worked out by hand. It does nothing.
pub fn worked_versions()
    ensures { Works }
{}

/// What a build gives, and its first phase, keeps to the program's version where its root widget does, whatever tree there was before.
/// It does nothing.
pub fn builds_keep_to_their_version()
    ensures first { (c : PlainChecked) (old : Option PlainNode) (next : ℕ) (root : PlainWidget) (tree : PlainNode) (s : Progress)
        → KeepsToVersion c → WidgetKeepsTo c.version root → first_tree (blueprint_of c) old next root ≡ gives tree s → TreeKeepsTo c.version tree }
    ensures whole { (c : PlainChecked) (screen : Screen) (old : Option PlainNode) (next after : ℕ) (root : PlainWidget) (tree : PlainNode)
        → KeepsToVersion c → WidgetKeepsTo c.version root → full_build (blueprint_of c) screen old next root ≡ built tree after
        → TreeKeepsTo c.version tree }
{}

/// A session begins with what keeps to its program's version, and each command leaves it so: the program, the widget of which the next
/// frame makes the tree, and the tree of the last one. So does what that frame makes. It does nothing.
pub fn states_keep_to_their_version()
    ensures first { (c : PlainChecked) (delegates : List Plug) → KeepsToVersion c → StateKeepsToVersion (first_state c delegates) }
    ensures steps { (s : SessionState) (command : Command) → StateKeepsToVersion s → StateKeepsToVersion (state_after s (step s command)) }
    ensures trees { (s : SessionState) (tree : PlainNode) (next : ℕ) → StateKeepsToVersion s → built_of s ≡ built tree next
        → TreeKeepsTo s.program.version tree }
{}

/// What is read as a template or a program keeps to its version, and what its check gives. It does nothing.
pub fn programs_keep_to_their_version()
    ensures templates { (version : ℕ) (text : List ℕ) (t : PlainTemplate) → read_as (template_of version) text ≡ Ok t → TemplateKeepsTo version t }
    ensures roots { (c : PlainChecked) (t : PlainTemplate) (b : PlainBody) → TemplateKeepsTo c.version t → checked_widget c t ≡ Ok b
        → BodyKeepsTo c.version b }
    ensures written { (text : List ℕ) (p : PlainProgram) → read_as program_of text ≡ Ok p → IsOfItsVersion p }
    ensures checked { (p : PlainProgram) (c : PlainChecked) → IsOfItsVersion p → checked_program p ≡ Ok c → KeepsToVersion c }
{}

/// In version 1 there are no lazy lists: neither in a tree that keeps to it, nor in what of it is laid out, and none waits after the first
/// phase of its build. It does nothing.
pub fn first_versions_have_no_lists()
    ensures trees { (tree : PlainNode) → TreeKeepsTo 1 tree → HasNoLists tree }
    ensures renders { (tree : PlainNode) → HasNoLists tree → RenderHasNoLists (top_of (render_of tree)) }
    ensures waiting { (b : Blueprint) (old : Option PlainNode) (next : ℕ) (root : PlainWidget) (tree : PlainNode) (s : Progress)
        → first_tree b old next root ≡ gives tree s → HasNoLists tree → s.waiting ≡ [] }
{}

/// Where neither a root nor the body of a component has a lazy list, what bodies give has none, nor has the tree of a build, in which then
/// none waits. It does nothing.
pub fn programs_without_lists_build_none()
    ensures outputs { (c : PlainChecked) (place : ℕ) (props : List Value) (slots : List PlainWidget) (fields values : List Value) (number : ℕ) → HasNoListBodies c
        → AllLooksMeet IsNoList (widgets_of slots) → AllLooksMeet IsNoList (widgets_of ((blueprint_of c).output place props slots fields values number)) }
    ensures trees { (c : PlainChecked) (old : Option PlainNode) (next : ℕ) (root : PlainWidget) (tree : PlainNode) (s : Progress) → HasNoListBodies c → WidgetHasNoLists root
        → first_tree (blueprint_of c) old next root ≡ gives tree s → HasNoLists tree × (s.waiting ≡ []) }
{}

/// Where no lazy list waits after the first phase of a build, the tree that it gives has none. It does nothing.
pub fn lists_in_the_tree_wait()
    ensures { (b : Blueprint) (old : Option PlainNode) (next : ℕ) (root : PlainWidget) (tree : PlainNode) (s : Progress)
        → first_tree b old next root ≡ gives tree s → s.waiting ≡ [] → HasNoLists tree }
{}

/// Where lazy lists wait after the first phase of a build, the tree that it gives has one, and so has what of it is laid out. It does
/// nothing.
pub fn waiting_lists_are_in_the_tree()
    ensures trees { (b : Blueprint) (screen : Screen) (old : Option PlainNode) (next after : ℕ) (root : PlainWidget) (mid tree : PlainNode) (s : Progress)
        → first_tree b old next root ≡ gives mid s → (s.waiting ≡ [] → ⊥) → full_build b screen old next root ≡ built tree after
        → HasNoLists tree → ⊥ }
    ensures renders { (tree : PlainNode) (top : Render) → render_of tree ≡ top ∷ [] → RenderHasNoLists top → HasNoLists tree }
{}
