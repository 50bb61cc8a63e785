// Laws of trees that were built in place. None of these calls does anything. They say that the definitions by which the walk is told are
// right; no other crate needs them.
ghost use Rattle.std.specs.Prelude.{◌≡◌, ℕ, Option, None, List};
ghost use Rattle.std.specs.Option.{option_to_list};
ghost use Rattle.fx_expr.specs.declared.values.Value.{Value};
ghost use Rattle.fx_handles.specs.declared.Handle.{Handle};
ghost use Rattle.node_tree.specs.Edits.{Adds};
ghost use Rattle.node_tree.specs.Forest.{Forest, tops, append};
ghost use Rattle.node_tree.specs.Tree.{Tree as TreeOf, Is};
ghost use Rattle.widget_model.specs.Plain.{PlainWidget};
ghost use Rattle.plain_tree.specs.declared.render.ParentData.{ParentData};
ghost use Rattle.plain_tree.specs.declared.role.RenderRole.{RenderRole};
ghost use Rattle.build_form.specs.Partner.{arrival, arrivals, partner_of, holder_in};
ghost use Rattle.element_tree.specs.Element.{Element as ElementOf, element_at};
ghost use Rattle.render_tree.specs.Edits.{new_object};
ghost use Rattle.render_tree.specs.Object.{RenderObject as ObjectOf};
ghost use Rattle.render_tree.specs.Redraw.{Redraw as RedrawOf};
ghost use Rattle.render_tree.specs.Tree.{object_at};
ghost use Rattle.build_walk.specs.Keeping.{kept_output};
ghost use Rattle.build_walk.specs.Past.{Pasts};
ghost use Rattle.build_walk.specs.Renewing.{AllGoOn, AreDrawn, drawn};
ghost use Rattle.first_builds.specs.Mounted.{mounted, first_arrivals, StayStored, StayDrawn};
ghost use Rattle.first_builds.specs.Scattered.{scattered, MountedAs};
ghost use Rattle.build_owner.specs.Redrawn.{IsRedrawn};
ghost use Rattle.node_tree.specs.Forest.Forest.{none, tree};
ghost use Rattle.node_tree.specs.Forest.{count, paste};
ghost use Rattle.std.specs.Prelude.{length};
ghost use Rattle.node_tree.specs.Mounting.{put_under, put_last, children_below, CanMount};
ghost use Rattle.first_builds.specs.Inflated.{AreInflated, IsInflated, IsMounted};
ghost use Rattle.first_builds.specs.WorkedMounts.{WorksOfMounts};
ghost use Rattle.std.specs.Prelude.{suc, true, false, Some, [], ◌∷◌, ◌++◌};
ghost use Rattle.widget_model.specs.Plain.{look_of};
ghost use Rattle.plain_tree.specs.RenderRole.{vanishes};
ghost use Rattle.build_form.specs.BuildRole.{build_role_of};
ghost use Rattle.build_form.specs.Entering.{Blueprint, first, waits, values_below};
ghost use Rattle.build_form.specs.Step.{Progress};
ghost use Rattle.build_walk.specs.Renewing.{role_of};
ghost use Rattle.build_walk.specs.Walked.{WalkPlace, through, under};
ghost use Rattle.std.specs.Prelude.{nat_lt, nat_le};
ghost use Rattle.widget_model.specs.Plain.{key_of};
ghost use Rattle.build_form.specs.Entering.{first_fields, met_once, given_by, apart, counted, opening};
ghost use Rattle.build_form.specs.FullBuild.{basis};
ghost use Rattle.build_form.specs.Step.{Fault, stops, gives};
ghost use Rattle.work_sets.specs.Due.{names_read};
ghost use Rattle.build_walk.specs.Counting.{built_here, builds_opening};
ghost use Rattle.build_walk.specs.Entered.{StoresGiven, IsElementFor};
ghost use Rattle.build_walk.specs.Keeping.{reopened};
ghost use Rattle.widget_model.specs.Size.{count_of};
ghost use Rattle.widget_model.specs.Typed.{IsTypedWidget};
ghost use Rattle.program_check.specs.Checked.{PlainChecked};
ghost use Rattle.program_check.specs.TypedChecked.{IsTypedChecked};
ghost use Rattle.template_build.specs.Program.{declarations_of};
ghost use Rattle.build_form.specs.Entering.{depth_limit, output_limit};
ghost use Rattle.build_form.specs.FullBuild.{Screen, started};
ghost use Rattle.build_form.specs.Program.{blueprint_of};
ghost use Rattle.element_tree.specs.Element.{made_count};
ghost use Rattle.global_keys.specs.Holders.{Registry as RegistryOf};
ghost use Rattle.global_keys.specs.Named.{NamesExactly};
ghost use Rattle.build_walk.specs.Standing.{pasts_from};
ghost use Rattle.build_owner.specs.Making.{MakesNodes};
ghost use Rattle.build_owner.specs.Phases.{IsWholeBuild, above_all};
ghost use Rattle.build_owner.specs.Standing.{Beginning, next_at};
ghost use Rattle.first_builds.specs.Inflated.{progress_at};

use build_walk::{builds_leave_standing_trees, first_phases_go_on_from_elements};

/// Nodes that were made in their places are what a plan makes of nodes that were made each by itself.
pub(crate) fn redrawn_in_place()
    ensures { (r : TreeOf ObjectOf) (d : Forest RedrawOf) (g : Forest ObjectOf) → Is r g → MountedAs d g → option_to_list r.root ≡ tops g → IsRedrawn (scattered r) r d }
{}

/// Where a node is put makes no difference to it where each is by itself.
pub(crate) fn added_alone()
    ensures { (old new : TreeOf ObjectOf) (q : Option Handle) (i : ℕ) (h : Handle) (v : ObjectOf) → Adds old.nodes new.nodes q i h v
        → Adds (scattered old).nodes (scattered new).nodes None 0 h (new_object v.number v.widget) }
{}

/// What is mounted for elements is what the plan for their render nodes makes, one after another.
pub(crate) fn mounted_as_drawn()
    ensures made { (above : RenderRole) (told : Option ParentData) (f : Forest ElementOf) → MountedAs (drawn above told f) (mounted above told f) }
    ensures turns { (above : RenderRole) (told : Option ParentData) (f g : Forest ElementOf) → mounted above told (append f g) ≡ append (mounted above told f) (mounted above told g) }
{}

/// Where nothing stood before, widgets arrive alone, and no component keeps anything.
pub(crate) fn first_widgets_come_alone()
    ensures arrivals { (ws : List PlainWidget) → arrivals None ws ≡ first_arrivals 0 ws }
    ensures partner { (w : PlainWidget) (place : ℕ) → partner_of (holder_in None) (arrival w place None) ≡ None }
    ensures kept { (pasts : Pasts) (w : PlainWidget) (values : List Value) → kept_output pasts None w values ≡ None }
{}

/// Elements go on from what stays stored, and so do render nodes.
pub(crate) fn stored_nodes_stay()
    ensures elements { (old new : TreeOf ElementOf) (f : Forest ElementOf) → StayStored old new → AllGoOn (element_at old) f → AllGoOn (element_at new) f }
    ensures drawn { (old new : TreeOf ObjectOf) (scrolled : ℕ → ℕ) (f : Forest ElementOf) → StayDrawn old new → AreDrawn (object_at old) scrolled f → AreDrawn (object_at new) scrolled f }
{}

/// Trees are put after the last child of a node, one after another, and below one that was put there.
pub(crate) fn mounts_in_turn()
    ensures last { (t : TreeOf ObjectOf) (f : Forest ObjectOf) (q : Option Handle) (s : Forest ObjectOf) → Is t f → CanMount t q → paste q (length (children_below t q)) s f ≡ put_last q s f }
    ensures nothing { (p : Handle) (f : Forest ObjectOf) → put_under p none f ≡ f }
    ensures more { (p : Handle) (r s f : Forest ObjectOf) → put_under p s (put_under p r f) ≡ put_under p (append r s) f }
    ensures below { (q : Option Handle) (h : Handle) (v : ObjectOf) (kids s f : Forest ObjectOf) → count h f ≡ 0
        → put_under h s (put_last q (tree h v kids none) f) ≡ put_last q (tree h v (append kids s) none) f }
    ensures worked { WorksOfMounts }
{}

/// A widget is inflated once its element and its render node were mounted, and what is below it was inflated, one after another.
pub(crate) fn widgets_are_inflated()
    ensures none { (b : Blueprint) (pasts : Pasts) (left : ℕ) (values : List Value) (scrolled : ℕ → ℕ) (h k : Handle) (e : ElementOf) (s : Progress) (t : TreeOf ElementOf) (r : TreeOf ObjectOf)
        → AreInflated b pasts left values scrolled (under h k e) [] 0 s s t t r r }
    ensures more { (b : Blueprint) (pasts : Pasts) (left : ℕ) (values : List Value) (scrolled : ℕ → ℕ) (h k : Handle) (e : ElementOf) (ws : List PlainWidget) (w : PlainWidget) (s mid u : Progress)
        (t0 t1 t2 : TreeOf ElementOf) (r0 r1 r2 : TreeOf ObjectOf) (c : Handle) → StayStored t1 t2 → StayDrawn r1 r2
        → AreInflated b pasts left values scrolled (under h k e) ws 0 s mid t0 t1 r0 r1 → IsInflated b pasts left values scrolled (under h k e) w (length ws) mid u t1 t2 r1 r2 c
        → AreInflated b pasts left values scrolled (under h k e) (ws ++ w ∷ []) 0 s u t0 t2 r0 r2 }
    ensures drawn { (b : Blueprint) (pasts : Pasts) (left : ℕ) (values : List Value) (scrolled : ℕ → ℕ) (at : WalkPlace) (w : PlainWidget) (place : ℕ) (before mid after : Progress)
        (t0 t1 t2 : TreeOf ElementOf) (r0 r1 r2 : TreeOf ObjectOf) (h k : Handle) (output : Option PlainWidget) (m : IsMounted b pasts values scrolled at w place before mid t0 t1 r0 r1 h output (Some k))
        → waits first (build_role_of (look_of w)) ≡ false → vanishes (role_of m.element) ≡ false → StayStored t1 t2 → StayDrawn r1 r2
        → AreInflated b pasts left (values_below w values) scrolled (under h k m.element) m.opening.given 0 mid after t1 t2 r1 r2
        → IsInflated b pasts (suc left) values scrolled at w place before after t0 t2 r0 r2 h }
    ensures through { (b : Blueprint) (pasts : Pasts) (left : ℕ) (values : List Value) (scrolled : ℕ → ℕ) (at : WalkPlace) (w : PlainWidget) (place : ℕ) (before mid after : Progress)
        (t0 t1 t2 : TreeOf ElementOf) (r0 r1 r2 : TreeOf ObjectOf) (h c : Handle) (output : Option PlainWidget) (child : PlainWidget) (m : IsMounted b pasts values scrolled at w place before mid t0 t1 r0 r1 h output None)
        → waits first (build_role_of (look_of w)) ≡ false → vanishes (role_of m.element) ≡ true → m.opening.given ≡ child ∷ [] → StayStored t1 t2
        → IsInflated b pasts left (values_below w values) scrolled (through at h m.element) child 0 mid after t1 t2 r1 r2 c
        → IsInflated b pasts (suc left) values scrolled at w place before after t0 t2 r0 r2 h }
{}

/// Once a root was inflated where nothing stood, it is the whole build: elements, render nodes and registry stand for its tree.
pub(crate) fn inflated_roots_stand()
    ensures { (c : PlainChecked) (t0 : TreeOf ElementOf) (r0 : TreeOf ObjectOf) (g0 : RegistryOf) (b : Beginning c t0 r0 g0) (screen : Screen) (w : PlainWidget) (t : TreeOf ElementOf) (r : TreeOf ObjectOf) (g : RegistryOf)
        (h : Handle) (entered : ℕ) → IsTypedChecked c → IsTypedWidget (declarations_of c) w → nat_lt output_limit (count_of w) ≡ false → Is t0 none → Is r0 none → r0.root ≡ None
        → IsInflated (blueprint_of c) (pasts_from c b.stands.elements.forest) depth_limit (blueprint_of c).defaults b.scrolled above_all w 0 (started (next_at t0)) (progress_at entered g t) t0 t r0 r h
        → t.root ≡ Some h → r.inactive ≡ [] → NamesExactly g t → MakesNodes (made_count t0) (made_count t) (scattered r0) (scattered r)
        → IsWholeBuild c t0 r0 g0 b screen w r0 t r g }
{
    first_phases_go_on_from_elements();
    builds_leave_standing_trees();
}

/// A widget is opened where nothing stood before: its output may be too large, its children may have one key; else it is opened, with the next
/// number, its first fields, and what its body gives or the children that it has. A component is built.
pub(crate) fn widgets_are_opened_anew()
    ensures built { (b : Blueprint) (pasts : Pasts) (values : List Value) (w : PlainWidget) (place : ℕ) (s met : Progress) → nat_le b.nodes s.entered ≡ false → met_once (key_of w) s ≡ gives tt met
        → builds_opening (basis b None) pasts values (arrival w place None) s ≡ built_here (names_read (look_of w)) None }
    ensures large { (b : Blueprint) (pasts : Pasts) (values : List Value) (w : PlainWidget) (place : ℕ) (s met : Progress) → nat_le b.nodes s.entered ≡ false → met_once (key_of w) s ≡ gives tt met
        → (number : ℕ) (fields : List Value) → number ≡ met.next → fields ≡ first_fields b (build_role_of (look_of w)) → (x : Fault)
        → ((u : Progress) → given_by b (build_role_of (look_of w)) values number fields w u ≡ stops x) → reopened (basis b None) pasts values (arrival w place None) s ≡ stops x }
    ensures apart { (b : Blueprint) (pasts : Pasts) (values : List Value) (w : PlainWidget) (place : ℕ) (s met : Progress) → nat_le b.nodes s.entered ≡ false → met_once (key_of w) s ≡ gives tt met
        → (number : ℕ) (fields : List Value) → number ≡ met.next → fields ≡ first_fields b (build_role_of (look_of w)) → (ws : List PlainWidget)
        → ((u : Progress) → given_by b (build_role_of (look_of w)) values number fields w u ≡ gives ws u) → (x : Fault) → ((u : Progress) → apart ws u ≡ stops x)
        → reopened (basis b None) pasts values (arrival w place None) s ≡ stops x }
    ensures opened { (b : Blueprint) (pasts : Pasts) (values : List Value) (w : PlainWidget) (place : ℕ) (s met : Progress) → nat_le b.nodes s.entered ≡ false → met_once (key_of w) s ≡ gives tt met
        → (number : ℕ) (fields : List Value) → number ≡ met.next → fields ≡ first_fields b (build_role_of (look_of w)) → (ws : List PlainWidget)
        → ((u : Progress) → given_by b (build_role_of (look_of w)) values number fields w u ≡ gives ws u) → (after : Progress) → ((u : Progress) → apart ws u ≡ gives ws u) → counted None met ≡ after
        → reopened (basis b None) pasts values (arrival w place None) s ≡ gives (opening (partner_of (holder_in None) (arrival w place None)) number fields ws) after }
    ensures element { (scrolled : ℕ → ℕ) (w : PlainWidget) (place number : ℕ) (fields : List Value) (ws : List PlainWidget) (e : ElementOf) → e.number ≡ number → e.widget ≡ w → e.fields ≡ fields → e.index ≡ place
        → scrolled number ≡ 0 → StoresGiven (build_role_of (look_of e.widget)) e ws
        → IsElementFor scrolled (arrival w place None) (opening (partner_of (holder_in None) (arrival w place None)) number fields ws) e }
{}
