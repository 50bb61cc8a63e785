// The text of states.
ghost use Rattle.std.specs.Prelude.{◌≡◌, ◌++◌, ℕ, List, Option, codes, OnOk};
ghost use Rattle.std.specs.Fmt.{decimal};
ghost use Rattle.delegates.specs.Table.{Plug};
ghost use Rattle.plain_tree.specs.PlainNode.{PlainNode};
ghost use Rattle.plain_tree.specs.States.{holding, scrolled};
ghost use Rattle.program_check.specs.Checked.{PlainChecked};
ghost use Rattle.frame_owner.specs.Standing.{FrameStandsFor};
ghost use Rattle.session_form.specs.Handlers.{node_in};
ghost use Rattle.frame_session.specs.NodeState.{state_found, states_found};
ghost use Rattle.session_form.specs.StatesText.{field_text, fields_text, state_text, all_states_text, states_text};

use crate::node_state::{NodeState, node_state};
use crate::values::push_value;
use frame_owner::FrameOwner;
use fx_expr::{Txt, Ty, Value};
use std::alloc::{AllocError, Global};
use widget_model::Decl;

// Adds ` f=v`.
fn push_field(alloc: Global, name: &Txt, value: &Value, out: &mut Vec<u8>) -> Result<(), AllocError>
    ensures { OnOk result (out.new.items ≡ out.old.items ++ field_text name.now value.now) }
{
    out.extend_from_slice(b" ")?;
    out.extend_from_slice(name.get().as_bytes())?;
    out.extend_from_slice(b"=")?;
    push_value(alloc, value, out)
}

// Adds ` f=v` for each field.
fn push_fields(
    alloc: Global,
    fields: &[(Txt, Ty)],
    values: &[Value],
    out: &mut Vec<u8>,
) -> Result<(), AllocError>
    ensures { OnOk result (out.new.items ≡ out.old.items ++ fields_text fields.now values.now) }
{
    let mut rest = values;
    for field in fields {
        let Some((value, others)) = rest.split_first() else {
            return Ok(());
        };
        push_field(alloc, &field.0, value, out)?;
        rest = others;
    }
    Ok(())
}

// Adds `#n NAME`.
fn print_head(alloc: Global, number: u64, name: &str, out: &mut Vec<u8>) -> Result<(), AllocError>
    ensures { OnOk result (out.new.items ≡ out.old.items ++ (codes "#" ++ (decimal number ++ (codes " " ++ name.now)))) }
{
    let head = format!(in alloc; "#{number} {name}")?;
    out.extend_from_slice(head.as_bytes())
}

// Adds the line of a component.
fn print_fields(
    alloc: Global,
    number: u64,
    declaration: &Decl,
    values: &[Value],
    out: &mut Vec<u8>,
) -> Result<(), AllocError>
    ensures { OnOk result (out.new.items ≡ out.old.items ++ state_text (holding number declaration.now values.now)) }
{
    print_head(alloc, number, declaration.name.get(), out)?;
    push_fields(alloc, declaration.fields.get(), values, out)?;
    out.extend_from_slice(b"\n")
}

// Adds the line of a Viewport.
fn print_offset(
    alloc: Global,
    number: u64,
    scroll: u64,
    out: &mut Vec<u8>,
) -> Result<(), AllocError>
    ensures { OnOk result (out.new.items ≡ out.old.items ++ state_text (scrolled number scroll)) }
{
    let line = format!(in alloc; "#{number} Viewport scroll={scroll}\n")?;
    out.extend_from_slice(line.as_bytes())
}

// Adds the line of the node with a number, where it has a state.
fn print_state(
    alloc: Global,
    owner: &FrameOwner,
    number: u64,
    out: &mut Vec<u8>,
) -> Result<(), AllocError>
    ensures { (c : PlainChecked) (delegates : List Plug) (marks : List ℕ) (tree : Option PlainNode) → FrameStandsFor c delegates marks tree owner.now
        → OnOk result (out.new.items ≡ out.old.items ++ all_states_text (state_found (node_in tree number))) }
{
    let Some(widget) = owner.widget(number) else {
        return Ok(());
    };
    let fields = owner.fields(number);
    match node_state(&widget.kind, fields) {
        NodeState::Nothing => Ok(()),
        NodeState::Fields(declaration) => print_fields(alloc, number, declaration, fields, out),
        NodeState::Offset => match owner.scroll_at(number) {
            Some(scroll) => print_offset(alloc, number, scroll, out),
            None => Ok(()),
        },
    }
}

// Adds the lines of the nodes with these numbers.
fn print_all(
    alloc: Global,
    owner: &FrameOwner,
    numbers: &[u64],
    out: &mut Vec<u8>,
) -> Result<(), AllocError>
    ensures { (c : PlainChecked) (delegates : List Plug) (marks : List ℕ) (tree : Option PlainNode) → FrameStandsFor c delegates marks tree owner.now
        → OnOk result (out.new.items ≡ out.old.items ++ all_states_text (states_found (node_in tree) numbers.now)) }
{
    for number in numbers {
        print_state(alloc, owner, *number, out)?;
    }
    Ok(())
}

// Adds the text of the states of a tree, if there is one.
pub(crate) fn print_states(
    alloc: Global,
    owner: &FrameOwner,
    out: &mut Vec<u8>,
) -> Result<(), AllocError>
    ensures { (c : PlainChecked) (delegates : List Plug) (marks : List ℕ) (tree : Option PlainNode) → FrameStandsFor c delegates marks tree owner.now
        → OnOk result (out.new.items ≡ out.old.items ++ states_text tree) }
{
    out.extend_from_slice(b"states\n")?;
    let numbers = owner.numbers(alloc)?;
    print_all(alloc, owner, numbers.as_slice(), out)?;
    out.extend_from_slice(b"end\n")
}
