// The members of a template, evaluated where it is built: expressions, words, handlers, names, props and its key.
ghost use Rattle.std.specs.Prelude.{◌≡◌, ◌≤◌, true, map, option_map, IfOk, IfSome, IsTrue};
ghost use Rattle.fx_expr.specs.declared.values.Ty.{Ty};
ghost use Rattle.fx_expr.specs.declared.values.Ty.TheVariants as ty;
ghost use Rattle.fx_expr.specs.Scope.{types_in};
ghost use Rattle.fx_expr.specs.ScopeView.{env_of};
ghost use Rattle.fx_expr.specs.Typed.{HasType};
ghost use Rattle.fx_expr.specs.Value.{type_of};
ghost use Rattle.fx_expr.specs.ValueOf.{value_of};
ghost use Rattle.fx_expr.specs.View.{exp_of};
ghost use Rattle.expr_check.specs.Handlers.{AreTypedSets};
ghost use Rattle.program_check.specs.Body.{part_at};
ghost use Rattle.program_check.specs.BodyView.{plain_body_key, plain_body_key_member};
ghost use Rattle.template_build.specs.Members.{closed_set, expression_at, value_given, value_or_zero, number_given, flag_or, text_or_empty, ints_or_none, up_to, between, up_to_or, length_given, length_or_zero, extent_at, place_given, alignment_or, color_or, word_at, name_at, sets_in, handler_given, props_in, props_at, exp_in_key, key_value, key_in};
ghost use Rattle.template_build.specs.MembersView.{members_at, scene_at, IsBuilt};
ghost use Rattle.template_build.specs.Wanted.{is_wanted, HaveTypes};

use crate::scenes::Scene;
use fx_expr::{Expr, Handler, IntList, Scope, SetList, Txt, Value, ValueList, close, eval};
use program_check::{Body, BodyPart, KeyExpr};
use program_form::Word;
use std::alloc::{AllocError, Global};
use widget_keys::Key;

// The greatest length, in u, and the greatest color, opaque white.
const GREATEST_LENGTH: u64 = 1 << 40;

const GREATEST_PLACE: i64 = 1 << 40;

const GREATEST_COLOR: u64 = 0xffff_ffff;

// A template, and where it is built: the scene, and the loop variables from the outermost loop on.
#[derive(Clone, Copy)]
pub(crate) struct Members<'a> {
    pub scene: &'a Scene<'a>,
    pub vars: &'a [Value],
    pub body: &'a Body,
}

// The number as one from 0 to a greatest one.
fn up_to(number: i64, greatest: u64) -> u64
    ensures value { result ≡ up_to greatest number }
    ensures within { result ≤ greatest }
{
    if number < 0 {
        0
    } else {
        (number as u64).min(greatest)
    }
}

// The sets, closed.
fn close_sets(alloc: Global, sets: &SetList, scope: &Scope<'_>) -> Result<SetList, AllocError>
    requires { AreTypedSets (types_in (env_of scope.now)) sets.now }
    ensures { IfOk result (λ c. c ≡ map (closed_set (env_of scope.now)) sets.now) }
{
    let list = sets.get();
    let mut closed = Vec::with_capacity(alloc, list.len())?;
    for set in list {
        let value = close(alloc, &set.1, scope)?;
        closed.push((set.0, value))?;
    }
    Ok(SetList::of(closed))
}

// The values of expressions.
pub(crate) fn values_of(
    alloc: Global,
    exprs: &[Expr],
    scope: &Scope<'_>,
) -> Result<Vec<Value>, AllocError>
    requires { HaveTypes (types_in (env_of scope.now)) (map exp_of exprs.now) }
    ensures { IfOk result (λ vs. vs.items ≡ map (λ e. value_of e (env_of scope.now)) (map exp_of exprs.now)) }
{
    let mut values = Vec::with_capacity(alloc, exprs.len())?;
    for e in exprs {
        values.push(eval(alloc, e, scope)?)?;
    }
    Ok(values)
}

// The value of a key.
fn key_of(alloc: Global, key: &KeyExpr, scope: &Scope<'_>) -> Result<Key<Value>, AllocError>
    requires { HasType (types_in (env_of scope.now)) (exp_in_key (plain_body_key key.now)) }
    ensures { IfOk result (λ k. k ≡ key_value (plain_body_key key.now) (env_of scope.now)) }
{
    match key {
        KeyExpr::Local(e) => Ok(Key::Local(eval(alloc, e, scope)?)),
        KeyExpr::Global(e) => Ok(Key::Global(eval(alloc, e, scope)?)),
    }
}

impl<'a> Members<'a> {
    // What its expressions can name.
    fn scope(&self) -> Scope<'_>
        ensures { env_of result ≡ (scene_at self.now).env }
    {
        self.scene.scope(self.vars)
    }

    // The expression at a place, where it is given.
    fn expression(&self, place: usize) -> Option<&'a Expr>
        ensures { option_map (λ e. exp_of e.now) result ≡ expression_at (members_at self.now) place }
    {
        match self.body.part(place) {
            Some(BodyPart::Expression(e)) => Some(e),
            _ => None,
        }
    }

    // Its value, which has the type that the table wants.
    pub(crate) fn value(&self, alloc: Global, place: usize) -> Result<Option<Value>, AllocError>
        requires { IsBuilt self.now }
        ensures value { IfOk result (λ v. v ≡ value_given (members_at self.now) place (scene_at self.now)) }
        ensures typed { IfOk result (λ v. (t : Ty) → is_wanted self.now.body.now.w place t ≡ true → IfSome v (λ v. type_of v ≡ t)) }
    {
        match self.expression(place) {
            Some(e) => Ok(Some(eval(alloc, e, &self.scope())?)),
            None => Ok(None),
        }
    }

    // The value at a place, 0 where it is left out.
    pub(crate) fn value_or_zero(&self, alloc: Global, place: usize) -> Result<Value, AllocError>
        requires { IsBuilt self.now }
        ensures { IfOk result (λ v. v ≡ value_or_zero (members_at self.now) place (scene_at self.now)) }
    {
        match self.value(alloc, place)? {
            Some(value) => Ok(value),
            None => Ok(Value::Int(0)),
        }
    }

    // The number at a place.
    fn number(&self, alloc: Global, place: usize) -> Result<Option<i64>, AllocError>
        requires built { IsBuilt self.now }
        requires wanted { IsTrue (is_wanted self.now.body.now.w place ty.Int) }
        ensures { IfOk result (λ n. n ≡ number_given (members_at self.now) place (scene_at self.now)) }
    {
        match self.value(alloc, place)? {
            Some(Value::Int(number)) => Ok(Some(number)),
            Some(_) => unreachable!(),
            None => Ok(None),
        }
    }

    // The truth value at a place.
    pub(crate) fn flag_or(
        &self,
        alloc: Global,
        default: bool,
        place: usize,
    ) -> Result<bool, AllocError>
        requires built { IsBuilt self.now }
        requires wanted { IsTrue (is_wanted self.now.body.now.w place ty.Bool) }
        ensures { IfOk result (λ b. b ≡ flag_or default (members_at self.now) place (scene_at self.now)) }
    {
        match self.value(alloc, place)? {
            Some(Value::Bool(flag)) => Ok(flag),
            Some(_) => unreachable!(),
            None => Ok(default),
        }
    }

    // The text at a place, empty where it is left out.
    pub(crate) fn text_or_empty(&self, alloc: Global, place: usize) -> Result<Txt, AllocError>
        requires built { IsBuilt self.now }
        requires wanted { IsTrue (is_wanted self.now.body.now.w place ty.Text) }
        ensures { IfOk result (λ t. t ≡ text_or_empty (members_at self.now) place (scene_at self.now)) }
    {
        match self.value(alloc, place)? {
            Some(Value::Text(text)) => Ok(text),
            Some(_) => unreachable!(),
            None => Ok(Txt::of(String::new(alloc))),
        }
    }

    // The numbers at a place, none where they are left out.
    pub(crate) fn ints_or_none(&self, alloc: Global, place: usize) -> Result<IntList, AllocError>
        requires built { IsBuilt self.now }
        requires wanted { IsTrue (is_wanted self.now.body.now.w place ty.Ints) }
        ensures { IfOk result (λ ns. ns ≡ ints_or_none (members_at self.now) place (scene_at self.now)) }
    {
        match self.value(alloc, place)? {
            Some(Value::Ints(numbers)) => Ok(numbers),
            Some(_) => unreachable!(),
            None => Ok(IntList::of(Vec::new(alloc))),
        }
    }

    // The number at a place, from 0 to a greatest one.
    pub(crate) fn up_to_or(
        &self,
        alloc: Global,
        greatest: u64,
        default: u64,
        place: usize,
    ) -> Result<u64, AllocError>
        requires built { IsBuilt self.now }
        requires wanted { IsTrue (is_wanted self.now.body.now.w place ty.Int) }
        ensures value { IfOk result (λ n. n ≡ up_to_or greatest default (members_at self.now) place (scene_at self.now)) }
        ensures within { default ≤ greatest → IfOk result (λ n. n ≤ greatest) }
    {
        match self.number(alloc, place)? {
            Some(number) => Ok(up_to(number, greatest)),
            None => Ok(default),
        }
    }

    // The length at a place, where it is given.
    pub(crate) fn length(&self, alloc: Global, place: usize) -> Result<Option<u64>, AllocError>
        requires built { IsBuilt self.now }
        requires wanted { IsTrue (is_wanted self.now.body.now.w place ty.Int) }
        ensures { IfOk result (λ n. n ≡ length_given (members_at self.now) place (scene_at self.now)) }
    {
        match self.number(alloc, place)? {
            Some(number) => Ok(Some(up_to(number, GREATEST_LENGTH))),
            None => Ok(None),
        }
    }

    // The length at a place, 0 where it is left out.
    pub(crate) fn length_or_zero(&self, alloc: Global, place: usize) -> Result<u64, AllocError>
        requires built { IsBuilt self.now }
        requires wanted { IsTrue (is_wanted self.now.body.now.w place ty.Int) }
        ensures { IfOk result (λ n. n ≡ length_or_zero (members_at self.now) place (scene_at self.now)) }
    {
        self.up_to_or(alloc, GREATEST_LENGTH, 0, place)
    }

    // The extent of a list's items.
    pub(crate) fn extent(&self, alloc: Global, place: usize) -> Result<u64, AllocError>
        requires built { IsBuilt self.now }
        requires wanted { IsTrue (is_wanted self.now.body.now.w place ty.Int) }
        ensures { IfOk result (λ n. n ≡ extent_at (members_at self.now) place (scene_at self.now)) }
    {
        let length = self.length_or_zero(alloc, place)?;
        Ok(length.max(1))
    }

    // The place on either side of 0, where it is given.
    pub(crate) fn place(&self, alloc: Global, place: usize) -> Result<Option<i64>, AllocError>
        requires built { IsBuilt self.now }
        requires wanted { IsTrue (is_wanted self.now.body.now.w place ty.Int) }
        ensures { IfOk result (λ n. n ≡ place_given (members_at self.now) place (scene_at self.now)) }
    {
        match self.number(alloc, place)? {
            Some(number) => Ok(Some(number.clamp(-GREATEST_PLACE, GREATEST_PLACE))),
            None => Ok(None),
        }
    }

    // The alignment at a place.
    pub(crate) fn alignment_or(
        &self,
        alloc: Global,
        default: i64,
        place: usize,
    ) -> Result<i64, AllocError>
        requires built { IsBuilt self.now }
        requires wanted { IsTrue (is_wanted self.now.body.now.w place ty.Int) }
        ensures { IfOk result (λ n. n ≡ alignment_or default (members_at self.now) place (scene_at self.now)) }
    {
        match self.number(alloc, place)? {
            Some(number) => Ok(number.clamp(-100, 100)),
            None => Ok(default),
        }
    }

    // The color at a place.
    pub(crate) fn color_or(
        &self,
        alloc: Global,
        default: u32,
        place: usize,
    ) -> Result<u32, AllocError>
        requires built { IsBuilt self.now }
        requires wanted { IsTrue (is_wanted self.now.body.now.w place ty.Int) }
        ensures { IfOk result (λ n. n ≡ color_or default (members_at self.now) place (scene_at self.now)) }
    {
        match self.number(alloc, place)? {
            Some(number) => Ok(up_to(number, GREATEST_COLOR) as u32),
            None => Ok(default),
        }
    }

    // The word at a place, where it is given.
    pub(crate) fn word(&self, place: usize) -> Option<Word>
        ensures { result ≡ word_at (members_at self.now) place }
    {
        match self.body.part(place) {
            Some(BodyPart::Word(word)) => Some(*word),
            _ => None,
        }
    }

    // The name at a place, by its place in its list.
    pub(crate) fn name(&self, place: usize) -> u32
        ensures { result ≡ name_at (members_at self.now) place }
    {
        match self.body.part(place) {
            Some(BodyPart::Name(name)) => *name,
            _ => 0,
        }
    }

    // The sets of the handler at a place, where it is given.
    fn sets(&self, place: usize) -> Option<&'a SetList>
        ensures { option_map (λ sets. sets.now) result ≡ sets_in (part_at (members_at self.now) place) }
    {
        match self.body.part(place) {
            Some(BodyPart::Handler(sets)) => Some(sets),
            _ => None,
        }
    }

    // The handler at a place, where it is given.
    pub(crate) fn handler(&self, alloc: Global, place: usize) -> Result<Option<Handler>, AllocError>
        requires { IsBuilt self.now }
        ensures { IfOk result (λ h. h ≡ handler_given (members_at self.now) place (scene_at self.now)) }
    {
        match self.sets(place) {
            Some(sets) => {
                let sets = close_sets(alloc, sets, &self.scope())?;
                let owner = self.scene.owner;
                Ok(Some(Handler { owner, sets }))
            }
            None => Ok(None),
        }
    }

    // The expressions of the props at a place, none where they are left out.
    fn prop_exprs(&self, place: usize) -> &'a [Expr]
        ensures { map exp_of result.now ≡ props_in (part_at (members_at self.now) place) }
    {
        match self.body.part(place) {
            Some(BodyPart::Props(exprs)) => exprs.as_slice(),
            _ => &[],
        }
    }

    // The props at a place, in the order in which the component declares them.
    pub(crate) fn props(&self, alloc: Global, place: usize) -> Result<ValueList, AllocError>
        requires { IsBuilt self.now }
        ensures { IfOk result (λ vs. vs ≡ props_at (members_at self.now) place (scene_at self.now)) }
    {
        let values = values_of(alloc, self.prop_exprs(place), &self.scope())?;
        Ok(ValueList::of(values))
    }

    // The key.
    pub(crate) fn key(&self, alloc: Global) -> Result<Key<Value>, AllocError>
        requires { IsBuilt self.now }
        ensures { IfOk result (λ k. k ≡ key_in (plain_body_key_member self.now.body.now.key) (scene_at self.now)) }
    {
        match &self.body.key {
            Some(key) => key_of(alloc, key, &self.scope()),
            None => Ok(Key::None),
        }
    }
}
