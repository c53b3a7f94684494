//! Additions after `...` that no notation ties together (X.680, 25): each of them may be absent by itself.

use asn1_syntax::Token;
use asn1_syntax::tree::{Component, Part, Presence, TypeNotation};

// The additions that were gone over.
#[derive(Drop)]
struct Additions<'a> {
    // How many `...` were there.
    marks: usize,
    // Whether one is before, of the same `[[ ]]`.
    follows_one: bool,
    // Whether `[[` is before, and no `]]` after it.
    is_grouped: bool,
    // The first that is always there in its version.
    mandatory: Option<Token<'a>>,
}

impl<'a> Additions<'a> {
    // Goes past an addition, and returns the one that may be absent though this one is there, or another one of its `[[ ]]`.
    fn pass(&mut self, name: Token<'a>, presence: &Presence<'a>) -> Option<Token<'a>> {
        if self.mandatory.is_some() {
            return self.mandatory;
        }
        if matches!(presence, Presence::Required) {
            if self.follows_one {
                return Some(name);
            }
            self.mandatory = Some(name);
        }
        self.follows_one = self.is_grouped;
        None
    }

    // Goes past `[[` or `]]`.
    fn group(&mut self, is_grouped: bool) {
        self.is_grouped = is_grouped;
        self.follows_one = false;
    }

    // Goes past a component, as `pass` of an addition.
    fn next(&mut self, part: &Part<'a, TypeNotation<'a>>) -> Option<Token<'a>> {
        match part {
            Part::Named(name, _, presence) if self.marks == 1 => self.pass(*name, presence),
            Part::Extension(_) => {
                self.marks = self.marks.saturating_add(1);
                None
            }
            Part::GroupStart(_) => {
                self.group(true);
                None
            }
            Part::GroupEnd => {
                self.group(false);
                None
            }
            _ => None,
        }
    }
}

/// The first addition that is always there in its version, but may be absent here though a later one is there, or another one of its `[[ ]]`.
pub fn untied_addition<'a>(components: &[Component<'a, TypeNotation<'a>>]) -> Option<Token<'a>> {
    let mut additions = Additions {
        marks: 0,
        follows_one: false,
        is_grouped: false,
        mandatory: None,
    };
    for component in components {
        let found = additions.next(&component.part);
        if found.is_some() {
            return found;
        }
    }
    None
}
