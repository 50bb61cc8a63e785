// Which detector takes the focus next (`FocusNode.nextFocus`, `FocusNode.previousFocus`).
ghost use Rattle.std.specs.Prelude.{◌≡◌, ◌↔◌, [], None, IsNone};
ghost use Rattle.screen_form.specs.FocusSteps.{after, before, next_of, prev_of};

// The number right after another one.
fn after(order: &[u64], wanted: u64) -> Option<u64>
    ensures { result ≡ after order.now wanted }
{
    let mut found = false;
    for number in order {
        if found {
            return Some(*number);
        }
        found = *number == wanted;
    }
    None
}

// The number right before another one.
fn before(order: &[u64], wanted: u64) -> Option<u64>
    ensures { result ≡ before None order.now wanted }
{
    let mut earlier = None;
    for number in order {
        if *number == wanted {
            return earlier;
        }
        earlier = Some(*number);
    }
    None
}

/// The number after the one that has the focus; the first after the last, and where none in the order has the focus.
/// `None` exactly where the order is empty.
pub fn next(order: &[u64], at: Option<u64>) -> Option<u64>
    ensures next { result ≡ next_of order.now at }
    ensures none { IsNone result ↔ (order.now ≡ []) }
{
    let first = order.first().copied();
    match at {
        None => first,
        Some(number) => after(order, number).or(first),
    }
}

/// The number before the one that has the focus; the last before the first, and where none in the order has the focus.
/// `None` exactly where the order is empty.
pub fn prev(order: &[u64], at: Option<u64>) -> Option<u64>
    ensures prev { result ≡ prev_of order.now at }
    ensures none { IsNone result ↔ (order.now ≡ []) }
{
    let last = order.last().copied();
    match at {
        None => last,
        Some(number) => before(order, number).or(last),
    }
}
