//! The elements that are open.
ghost use Rattle.std.specs.Prelude.{◌≡◌, None};
ghost use Rattle.asn1show_json.specs.Open.{OpensElement};

/// How many elements are open around the next one, of those that are shown.
#[derive(Clone, Copy)]
pub struct OpenElements {
    // The depth of the outermost ones.
    base: Option<u8>,
    // How many are open.
    count: u8,
}

impl OpenElements {
    /// No open elements.
    pub fn new() -> OpenElements
        ensures base { result.base ≡ None }
        ensures count { result.count ≡ 0 }
    {
        OpenElements {
            base: None,
            count: 0,
        }
    }

    /// How many are open.
    pub fn count(self) -> u8
        ensures { result ≡ self.count }
    {
        self.count
    }

    /// Opens an element at this depth, and returns how many end before it.
    pub fn enter(&mut self, depth: u8) -> u8
        ensures { OpensElement self.old depth result self.new }
    {
        let base = self.base.unwrap_or(depth);
        let around = depth.saturating_sub(base).min(self.count);
        let ends = self.count - around;
        self.base = Some(base);
        self.count = around.saturating_add(1);
        ends
    }
}
