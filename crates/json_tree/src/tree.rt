// A JSON value, and what can be asked of it.
ghost use Rattle.std.specs.Prelude.{◌≡◌, is_some, option_map};
ghost use Rattle.serde_json.specs.Find.{as_array, as_number, as_object, as_str, get, get_member};
ghost use Rattle.serde_json.specs.View.{number_view};
ghost use Rattle.json_tree.specs.View.{view, items_view, members_view};

use serde_json::Number;

/// A JSON value, its texts lent by what was read. An object has each name once, in byte order; of a name that comes
/// twice the last value stays.
#[derive(Drop)]
pub enum Json<'a> {
    /// `null`.
    Null,
    /// `true` or `false`.
    Bool(bool),
    /// A number, in the range of a float.
    Number(Number),
    /// A text, with its escapes read.
    String(&'a str),
    /// An array's items.
    Array(Vec<Json<'a>>),
    /// An object's members.
    Object(Vec<(&'a str, Json<'a>)>),
}

impl<'a> Json<'a> {
    /// The text, where this is one.
    pub fn as_str(&self) -> Option<&'a str>
        ensures { option_map (λ s. s.now) result ≡ as_str (view self.now) }
    {
        if let Json::String(text) = self {
            Some(*text)
        } else {
            None
        }
    }

    /// The number, where this is one.
    pub fn as_number(&self) -> Option<&Number>
        ensures { option_map (λ n. number_view n.now) result ≡ as_number (view self.now) }
    {
        if let Json::Number(number) = self {
            Some(number)
        } else {
            None
        }
    }

    /// The items, where this is an array.
    pub fn as_array(&self) -> Option<&Vec<Json<'a>>>
        ensures { option_map (λ items. items_view items.now.items) result ≡ as_array (view self.now) }
    {
        if let Json::Array(items) = self {
            Some(items)
        } else {
            None
        }
    }

    /// The members, where this is an object.
    pub fn as_object(&self) -> Option<&Vec<(&'a str, Json<'a>)>>
        ensures { option_map (λ members. members_view members.now.items) result
            ≡ as_object (view self.now) }
    {
        if let Json::Object(members) = self {
            Some(members)
        } else {
            None
        }
    }

    /// Whether this is an object.
    pub fn is_object(&self) -> bool
        ensures { result ≡ is_some (as_object (view self.now)) }
    {
        self.as_object().is_some()
    }

    /// The member of that name, where this is an object that has it. The members are gone through one by one.
    pub fn get(&self, name: &str) -> Option<&Json<'a>>
        ensures { option_map (λ found. view found.now) result ≡ get name.now (view self.now) }
    {
        if let Json::Object(members) = self {
            find(members, name)
        } else {
            None
        }
    }
}

// The first member of that name.
fn find<'v, 'a>(members: &'v Vec<(&'a str, Json<'a>)>, name: &str) -> Option<&'v Json<'a>>
    ensures { option_map (λ found. view found.now) result ≡ get_member name.now (members_view members.now.items) }
{
    for member in members {
        if name == member.0 {
            return Some(&member.1);
        }
    }
    None
}
