// Widgets: what they are, with their members, and the lists that hold them.
ghost use Rattle.std.specs.Prelude.{◌≡◌, ◌-◌, ◌^◌, ◌<◌, min, map, length};
ghost use Rattle.widget_model.specs.Size.{count_of, count_in};
ghost use Rattle.widget_model.specs.View.{plain_of, shared, slots_in};
ghost use Rattle.widget_model.specs.Sized.{IsSized, AreSized};

use crate::decl::Decl;
use crate::words::{Behavior, FlexFit, MainSize};
use fx_expr::{Handler, IntList, Txt, Value, ValueList};
use fx_geom::{Axis, CrossAlign, MainAlign, StackFit};
use std::marker::Model;
use std::rc::Rc;
use widget_keys::Key;

/// What a widget is, with its members. A color is 0xAARRGGBB. A child and children stand in the widget.
#[cycle(widget)]
#[derive(Drop)]
pub enum Kind {
    /// A box with a width and a height of its own, in u, where they are given (`SizedBox`).
    SizedBox {
        width: Option<u64>,
        height: Option<u64>,
    },
    /// Bounds on the child's size, in u (`ConstrainedBox`).
    ConstrainedBox {
        min_width: u64,
        max_width: Option<u64>,
        min_height: u64,
        max_height: Option<u64>,
    },
    /// Room on the four sides of the child, in u (`Padding`).
    Padding {
        left: u64,
        top: u64,
        right: u64,
        bottom: u64,
    },
    /// The child at a place in the box, from -100, left or top, to 100 (`Align`).
    Align {
        ax: i64,
        ay: i64,
    },
    /// A box that is filled with a color, 0xAARRGGBB, below its child (`ColoredBox`).
    ColoredBox {
        color: u32,
    },
    /// A text in one color, 0xAARRGGBB (`Text`).
    Text {
        text: Txt,
        color: u32,
    },
    /// Children from left to right (`Row`).
    Row {
        main: MainAlign,
        cross: CrossAlign,
        size: MainSize,
    },
    /// Children from top to bottom (`Column`).
    Column {
        main: MainAlign,
        cross: CrossAlign,
        size: MainSize,
    },
    /// Children from left to right, in runs from top to bottom, with room between two children of a run and between two
    /// runs, in u (`Wrap`).
    Wrap {
        spacing: u64,
        run_spacing: u64,
    },
    /// Children row by row, in columns of these widths, in u, each clamped to 0..=2^40 at layout (`Table` with
    /// `FixedColumnWidth`).
    Table {
        widths: IntList,
    },
    /// Children on top of one another, at a place from -100 to 100 (`Stack`).
    Stack {
        ax: i64,
        ay: i64,
        fit: StackFit,
    },
    /// The share of the free room that the child has in a Row or Column (`Flexible`).
    Flexible {
        flex: u64,
        fit: FlexFit,
    },
    /// Where the child stands in a Stack, in u (`Positioned`).
    Positioned {
        left: Option<i64>,
        top: Option<i64>,
        right: Option<i64>,
        bottom: Option<i64>,
        width: Option<u64>,
        height: Option<u64>,
    },
    /// How much of the child is seen, of 255 (`Opacity`).
    Opacity {
        alpha: u8,
    },
    /// The child cut at the box's edges (`ClipRect`).
    ClipRect,
    /// A child that is painted on its own (`RepaintBoundary`).
    RepaintBoundary,
    /// What is below as one node for a reader of the screen (`MergeSemantics`).
    MergeSemantics,
    /// A child as wide as it would be by itself (`IntrinsicWidth`).
    IntrinsicWidth,
    /// A child as high as it would be by itself (`IntrinsicHeight`).
    IntrinsicHeight,
    /// A child that isn't shown where `offstage` is true, around which the box is as small as its bounds allow (`Offstage`).
    Offstage {
        offstage: bool,
    },
    /// A child that pointers pass by where `ignoring` is true (`IgnorePointer`).
    IgnorePointer {
        ignoring: bool,
    },
    /// A box that keeps pointers from its child where `absorbing` is true (`AbsorbPointer`).
    AbsorbPointer {
        absorbing: bool,
    },
    /// Handlers of gestures on the child (`GestureDetector`).
    Detector {
        behavior: Behavior,
        tap: Option<Handler>,
        long: Option<Handler>,
        vertical: Option<Handler>,
        horizontal: Option<Handler>,
        pan: Option<Handler>,
    },
    /// What a reader of the screen says of the child (`Semantics`).
    Semantics {
        label: Txt,
        button: bool,
        container: bool,
    },
    /// A child that a reader of the screen leaves out where `excluding` is true (`ExcludeSemantics`).
    ExcludeSemantics {
        excluding: bool,
    },
    /// A box that the delegate of this name paints (`CustomPaint`).
    CustomPaint {
        delegate: Txt,
    },
    /// A box that the delegate of this name lays out (`CustomSingleChildLayout`).
    CustomLayout {
        delegate: Txt,
    },
    /// Slivers, scrolled along an axis (`Viewport`).
    Viewport {
        axis: Axis,
    },
    /// A box among slivers (`SliverToBoxAdapter`).
    SliverToBox,
    /// Room round a sliver, in u (`SliverPadding`).
    SliverPadding {
        left: u64,
        top: u64,
        right: u64,
        bottom: u64,
    },
    /// Boxes of one extent, in u, one after another (`SliverFixedExtentList`).
    SliverFixed {
        extent: u64,
    },
    /// Boxes of one extent, in u, one after another, of which only those near what is seen are there
    /// (`SliverFixedExtentList` over a builder).
    SliverLazy {
        extent: u64,
    },
    /// A child of a lazy list that stays while it isn't seen, where `keep` is true (`KeepAlive`).
    Keep {
        keep: bool,
    },
    /// A value that components below read by a name, which is its place in the program's list (`InheritedWidget`).
    Inherit {
        name: u32,
        value: Value,
    },
    /// A component, by its place in the program's list, with its props and the contents of its slots in declared
    /// order (`StatefulWidget`, `StatelessWidget`).
    Use {
        component: u32,
        props: ValueList,
        slots: WidgetList,
        decl: Rc<Decl>,
    },
}

impl Kind {
    // How many widgets are in the slots.
    fn slots_size(&self) -> u32
        ensures { result ≡ min (count_in (slots_in self.now)) (2 ^ 32 - 1) }
    {
        match self {
            Kind::Use { slots, .. } => slots.total_size(),
            _ => 0,
        }
    }
}

/// A widget: its kind, its key, its children in order, and how many widgets it is.
#[cycle(widget)]
#[derive(Drop)]
pub struct Widget {
    pub kind: Kind,
    pub key: Key<Value>,
    pub children: WidgetList,
    pub size: u32,
}

impl Widget {
    /// The widget of this kind with this key and these children. Its size is 1 with the sizes of its children and of
    /// what is in its slots; it stops at `u32::MAX`.
    pub fn new(kind: Kind, key: Key<Value>, children: WidgetList) -> Widget
        ensures kind { result.kind ≡ kind }
        ensures key { result.key ≡ key }
        ensures children { result.children ≡ children }
        ensures size { IsSized result }
    {
        let below = kind.slots_size().saturating_add(children.total_size());
        Widget {
            kind,
            key,
            children,
            size: below.saturating_add(1),
        }
    }

    // The heavier of the list in its slots and the list of its children; the other one is dropped.
    #[cycle(dropping)]
    fn into_heavier(self) -> WidgetList
        ensures { count_in result < count_of (plain_of self) }
    {
        let Widget { kind, children, .. } = self;
        match kind {
            Kind::Use { slots, .. } => {
                if slots.total_size() > children.total_size() {
                    slots
                } else {
                    children
                }
            }
            _ => children,
        }
    }
}

/// A list of widgets, each shared with whoever else holds it. Contracts see it as the list of the plain widgets.
#[cycle(widget)]
pub struct WidgetList {
    items: Vec<Rc<Widget>>,
}

impl Model for WidgetList {
    ghost use Rattle.std.specs.Prelude.{List, map};
    ghost use Rattle.widget_model.specs.Plain.{PlainWidget};
    ghost use Rattle.widget_model.specs.PlainCode.{coded_widgets};

    ghost Value = { List PlainWidget };

    ghost coded = { coded_widgets };

    ghost use Rattle.widget_model.specs.Size.{count_in};
    ghost use Rattle.widget_model.specs.View.{shared};
    ghost use Rattle.widget_model.specs.Sized.{AreSized};

    ghost view = { λ l. map shared l.items.items };

    ghost invariant = { λ l. AreSized l.items.items };

    ghost size = { count_in };

    ghost use Rattle.widget_model.specs.Lighter.{lighter};

    ghost size_decreases = { λ a h. lighter a.items.items };
}

// A loop along the heaviest widgets: what else is dropped on the way is at most half of what is left.
impl Drop for WidgetList {
    #[cycle(dropping)]
    fn drop(mut self) {
        loop {
            let WidgetList { mut items } = self;
            if items.is_empty() {
                return;
            }
            let place = heaviest_of(items.as_slice());
            let heaviest = items.swap_remove(place);
            drop(items);
            match Rc::into_inner(heaviest) {
                None => return,
                Some(widget) => self = widget.into_heavier(),
            }
        }
    }
}

impl WidgetList {
    /// The list that `items` holds, each of which has its true size, as [`Widget::new`] gives it.
    pub fn of(items: Vec<Rc<Widget>>) -> WidgetList
        requires { AreSized items.items }
        ensures { result ≡ map shared items.items }
    {
        WidgetList { items }
    }

    /// The widgets, lent. Each has its true size.
    pub fn get(&self) -> &[Rc<Widget>]
        ensures widgets { map shared result.now ≡ self.now }
        ensures sizes { AreSized result.now }
    {
        self.items.as_slice()
    }

    /// How many widgets the list holds, with all that is in them; it stops at `u32::MAX`.
    pub fn total_size(&self) -> u32
        ensures { result ≡ min (count_in self.now) (2 ^ 32 - 1) }
    {
        let mut total = 0u32;
        for widget in self.items.iter() {
            total = total.saturating_add(widget.size);
        }
        total
    }
}

// The place of the first of the largest widgets.
fn heaviest_of(widgets: &[Rc<Widget>]) -> usize
    requires { 0 < length widgets.now }
    ensures { result < length widgets.now }
{
    let mut heaviest = 0;
    for i in 1..widgets.len() {
        if widgets[i].size > widgets[heaviest].size {
            heaviest = i;
        }
    }
    heaviest
}
