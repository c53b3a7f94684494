//! Reads of SET, whose elements a callback takes by their tags (X.690, 8.11, 9.3 and 10.3): `read_set`, which users call on a reader,
//! and the elements that their callback is handed.
ghost use Rattle.std.specs.Prelude.{IsTrue, ◌↔◌, ◌≡◌, ◌<◌, MatchOption, slice_index_or};
ghost use Rattle.std.specs.Fn.{FnOnceTakesAtMut, FnOnceReturnsAtMut};
ghost use Rattle.std.specs.List.{remove};
ghost use Rattle.std.specs.List.Sorted.{IsSortedByKey};
ghost use Rattle.std.specs.Ordering.{is_lt};
ghost use Rattle.std.specs.VecDeque.{deque_len};
ghost use Rattle.yasna_base.specs.Order.{tag_cmp};
ghost use Rattle.yasna_base.specs.Set.{set_tag};
ghost use Rattle.yasna_reader.specs.Set.{all_taken};
ghost use Rattle.yasna_reader.specs.SetList.{ElementsAreInSetOrder, ElementsAt};
ghost use Rattle.yasna_reader.specs.SetChoice.{IsAmong, IsFirstAmong, NoneIsAmong};
ghost use Rattle.yasna_reader.specs.declared.set.SetElement.{SetElement};

use crate::state::ReaderState;
use std::alloc::Global;
use std::collections::VecDeque;
use yasna_base::error::{ASN1Error, ASN1ErrorKind, ASN1Result};
use yasna_base::mode::BERMode;
use yasna_base::tag::Tag;
use yasna_base::tags::TAG_SET;
use yasna_bytes::bytes::cursor::Cursor;
use yasna_bytes::bytes::walk::raw_element;

/// An element of a SET, as it was found.
#[derive(Clone, Copy)]
pub struct SetElement<'a> {
    pub(crate) tag: Tag,
    pub(crate) bytes: &'a [u8],
    // where it ends, counted from the input's first byte
    pub(crate) end: usize,
}

impl<'a> SetElement<'a> {
    // Where it begins, counted from the input's first byte.
    #[cold]
    fn place(&self) -> usize {
        self.end.saturating_sub(self.bytes.len())
    }
}

// Why the elements of a SET weren't listed.
#[derive(Clone, Copy)]
struct Unlisted {
    kind: ASN1ErrorKind,
    // where the element begins that was rejected, counted from the input's first byte
    place: usize,
}

/// A set of elements from which one is chosen by its tag.
pub trait Choose<S> {
    ghost use Rattle.std.specs.Prelude.{List, Result};
    ghost use Rattle.yasna_base.specs.declared.error.ASN1Error.{ASN1Error};
    ghost use Rattle.yasna_base.specs.declared.tag.Tag.{Tag};

    /// What choosing an element does.
    ghost chooses: { Self → S → List Tag → Result (Unit {0}) ASN1Error → Self → S → Type 0 };

    /// Lets the state read the first element that has one of the tags, and takes it out.
    fn choose(&mut self, tags: &[Tag], state: &mut S) -> ASN1Result<()>
        ensures { chooses self.old state.old tags.now result self.new state.new };
}

/// A reading of one element, and the elements that are left.
#[derive(Drop)]
pub struct Chosen<S, L> {
    pub(crate) reader: S,
    pub(crate) list: L,
}

impl<S, L: Choose<S>> Chosen<S, L> {
    ghost use Rattle.std.specs.Borrow.{sem};
    ghost use Rattle.yasna_reader.specs.SetChoice.{LendsChosen};

    /// The reading of the first element left that has one of these tags, and only of that. The element is taken out, even if it is
    /// never read.
    ///
    /// Returns `Invalid` if there is none, which isn't sticky.
    pub fn next(&mut self, tags: &[Tag]) -> ASN1Result<&mut S>
        ensures* lends { sem 𝓛 (LendsChosen S.row L.row (λ l s r k t. L.chooses l s tags.now r k t) self.entry result) }
    {
        self.list.choose(tags, &mut self.reader)?;
        Ok(&mut self.reader)
    }
}

/// The elements of a SET, which are taken by their tags, in any order.
///
/// ```rust
/// pub fn read_setting(reader: BERReader) -> ASN1Result<Setting> {
///     reader.read_set(|elements| {
///         let number = elements.next(&[TAG_INTEGER])?.read_i64()?;
///         let enabled = elements.read_default(&[TAG_BOOLEAN], true, |flag| flag.read_bool())?;
///         let note = elements.read_optional(&[TAG_UTF8STRING], |text| text.read_utf8string())?;
///         Ok(Setting {
///             number,
///             enabled,
///             note,
///         })
///     })
/// }
/// ```
pub type BERReaderSet<'a, 'b> = Chosen<ReaderState<'a>, VecDeque<SetElement<'a>>>;

// The place of the first element that has one of these tags.
#[tactic(auto, using(crate::proofs::SetChoosing::among_more, crate::proofs::SetChoosing::among_here, crate::proofs::SetChoosing::among_end))]
fn first_among(list: &VecDeque<SetElement<'_>>, tags: &[Tag]) -> Option<usize>
    ensures { MatchOption result (NoneIsAmong tags.now list.now.items) (λ i. IsFirstAmong tags.now list.now.items i) }
{
    let mut place = 0;
    while place < list.len() {
        if is_among(tags, &list[place]) {
            return Some(place);
        }
        place += 1;
    }
    None
}

fn is_among(tags: &[Tag], element: &SetElement<'_>) -> bool
    ensures { IsTrue result ↔ IsAmong tags.now element.now }
{
    tags.contains(&element.tag)
}

// Takes out the element at this place.
#[inline(always)]
fn take<'a>(list: &mut VecDeque<SetElement<'a>>, place: usize) -> SetElement<'a>
    requires { place < deque_len list.old }
    ensures { (result ≡ slice_index_or list.old.items place result) × (list.new.items ≡ remove list.old.items place) }
{
    if place == 0 {
        return list.pop_front().unwrap();
    }
    take_after(list, place)
}

// Takes out an element that isn't the first: those on its shorter side move.
#[inline(never)]
fn take_after<'a>(list: &mut VecDeque<SetElement<'a>>, place: usize) -> SetElement<'a>
    requires { place < deque_len list.old }
    ensures { (result ≡ slice_index_or list.old.items place result) × (list.new.items ≡ remove list.old.items place) }
{
    list.remove(place).unwrap()
}

impl<'a> Choose<ReaderState<'a>> for VecDeque<SetElement<'a>> {
    ghost use Rattle.yasna_reader.specs.SetChoice.{Chooses};

    ghost chooses = { λ l s ts r k t. Chooses l.items s ts r k.items t };

    #[tactic(auto, using(crate::proofs::SetChoosing::chose, crate::proofs::SetChoosing::chose_none, crate::proofs::SetChoosing::chose_sticky))]
    fn choose(&mut self, tags: &[Tag], state: &mut ReaderState<'a>) -> ASN1Result<()> {
        state.untag();
        if let Some(error) = state.failed {
            return Err(error);
        }
        match first_among(self, tags) {
            Some(place) => {
                let element = take(self, place);
                state.turn_to(element);
                Ok(())
            }
            None => Err(ASN1Error::new(ASN1ErrorKind::Invalid)),
        }
    }
}

// Whether a tag goes before another.
fn tag_goes_before(tag: Tag, other: Tag) -> bool
    ensures { result ≡ is_lt (tag_cmp tag other) }
{
    tag.cmp(&other).is_lt()
}

// The first element whose tag goes before that of the previous one.
#[tactic(auto, using(crate::proofs::SetListing::ascend_more_at, crate::proofs::SetListing::ascend_not_at, crate::proofs::SetListing::ascend_end))]
fn first_falling<'a>(list: &[SetElement<'a>]) -> Option<SetElement<'a>>
    ensures { MatchOption result (IsSortedByKey (λ (x : SetElement). x.tag) tag_cmp list.now) (λ _. ¬ (IsSortedByKey (λ (x : SetElement). x.tag) tag_cmp list.now)) }
{
    let mut place = 1;
    while place < list.len() {
        if tag_goes_before(list[place].tag, list[place - 1].tag) {
            return Some(list[place]);
        }
        place += 1;
    }
    None
}

// The first element that isn't in the order that a mode requires (X.690, 9.3 and 10.3).
fn first_out_of_order<'a>(mode: BERMode, list: &[SetElement<'a>]) -> Option<SetElement<'a>>
    ensures { MatchOption result (ElementsAreInSetOrder mode list.now) (λ _. ¬ (ElementsAreInSetOrder mode list.now)) }
{
    match mode {
        BERMode::Ber => None,
        BERMode::Der => first_falling(list),
        BERMode::Cer => first_falling(list),
    }
}

// Elements aren't listed, as the one that begins here is rejected.
#[cold]
fn rejected_at(kind: ASN1ErrorKind, here: Cursor<'_>) -> Unlisted
    ensures { result.kind ≡ kind }
{
    Unlisted {
        kind,
        place: here.end.saturating_sub(here.left.len()),
    }
}

// Lists the elements up to the end of contents, and returns what is left.
fn list_elements<'a>(
    alloc: Global,
    cursor: Cursor<'a>,
) -> Result<(Vec<SetElement<'a>>, &'a [u8]), Unlisted>
    ensures { ElementsAt cursor.entry.levels cursor.entry.mode cursor.entry.left.now result }
{
    let mut list = Vec::new(alloc);
    let mut here = cursor;
    loop {
        match raw_element(here) {
            Ok((element, rest)) => {
                let listed = SetElement {
                    tag: element.tag,
                    bytes: element.bytes,
                    end: here.end.saturating_sub(rest.len()),
                };
                if list.push(listed).is_err() {
                    return Err(rejected_at(ASN1ErrorKind::OutOfMemory, here));
                }
                here = here.further(rest);
            }
            Err(rejection) => {
                if rejection.consumed {
                    return Err(rejected_at(rejection.kind, here));
                }
                return Ok((list, here.left));
            }
        }
    }
}

// The result of a callback that left these elements.
fn returned_of_all<T: Drop>(
    returned: ASN1Result<T>,
    others: &VecDeque<SetElement<'_>>,
) -> ASN1Result<T>
    ensures { result ≡ all_taken returned others.now.items }
{
    match returned {
        Ok(value) => match others.front() {
            None => Ok(value),
            _ => Err(ASN1Error::new(ASN1ErrorKind::Invalid)),
        },
        Err(error) => Err(error),
    }
}

// Runs a callback on a set of elements.
#[inline(always)]
fn run<S, L, T, F>(f: F, set: &mut Chosen<S, L>) -> ASN1Result<T>
where
    F: FnOnce(&mut Chosen<S, L>) -> ASN1Result<T>,
    requires { FnOnceTakesAtMut F.FnOnce f set.old }
    ensures { FnOnceReturnsAtMut F.FnOnce f set.old result set.new }
{
    f(set)
}

impl<'a> ReaderState<'a> {
    ghost use Rattle.std.specs.Prelude.{[], ◌≡◌};
    ghost use Rattle.yasna_reader.specs.Sequence.{TakesContents, ReadsParts};
    ghost use Rattle.yasna_reader.specs.Set.{RunsOnSet, TakesElements, emptied};
    ghost use Rattle.yasna_reader.specs.SetList.{SetListAt};
    ghost use Rattle.yasna_reader.specs.State.{IsFresh, untagged};

    /// Reads a SET (X.690, 8.11), whose elements the callback takes by their tags.
    ///
    /// All elements are listed before the callback is called: they are raw elements up to an end, and in DER and CER their tags don't
    /// fall (10.3 and 9.3), else `Invalid`. The callback has to take all of them, else `Invalid`. An error in it is sticky, whatever it
    /// returns: later calls return it.
    #[inline(always)]
    #[tactic(auto, using(crate::proofs::Sequences::stepped_in, crate::proofs::Sequences::stayed_out))]
    pub fn read_set<T: Drop, F>(&mut self, f: F) -> ASN1Result<T>
    where
        F: FnOnce(&mut BERReaderSet<'a, '_>) -> ASN1Result<T>,
        requires { TakesContents (TakesElements F.FnOnce f) set_tag self.old }
        ensures { ReadsParts (RunsOnSet F.FnOnce f) set_tag self.old result self.new }
    {
        let opened = self.step_in(TAG_SET)?;
        let mut contents = self.contents_reader(&opened);
        let returned = contents.run_on_set(f);
        self.leave(&opened, &returned, &contents)?;
        returned
    }

    // Runs a callback on the elements of these contents.
    #[inline(always)]
    fn run_on_set<T: Drop, F>(&mut self, f: F) -> ASN1Result<T>
    where
        F: FnOnce(&mut BERReaderSet<'a, '_>) -> ASN1Result<T>,
        requires fresh { IsFresh self.old }
        requires takes { TakesElements F.FnOnce f self.old }
        ensures { RunsOnSet F.FnOnce f self.old result self.new }
    {
        match self.list_set() {
            Ok((list, rest)) => {
                let mut set = Chosen {
                    reader: self.emptied(),
                    list,
                };
                let returned = run(f, &mut set);
                let Chosen { reader, list } = set;
                self.pass(rest, &reader, &list, returned.is_err());
                returned_of_all(returned, &list)
            }
            Err(rejected) => {
                self.set_place(rejected.place, 0);
                self.fail(ASN1Error::new(rejected.kind))
            }
        }
    }

    // Lists the elements of these contents, if they are in the order that the mode requires, and returns what is left.
    fn list_set(&self) -> Result<(VecDeque<SetElement<'a>>, &'a [u8]), Unlisted>
        ensures { SetListAt self.now.levels self.now.mode self.now.left result }
    {
        let cursor = self.cursor;
        match list_elements(self.alloc, cursor) {
            Ok((list, rest)) => match first_out_of_order(cursor.mode, &list) {
                None => Ok((VecDeque::from_vec(list), rest)),
                Some(element) => Err(Unlisted {
                    kind: ASN1ErrorKind::Invalid,
                    place: element.place(),
                }),
            },
            Err(rejected) => Err(rejected),
        }
    }

    // A reading like this one, of nothing. Its place is that of the first element, so that an error is there if none is taken.
    fn emptied(&self) -> ReaderState<'a>
        ensures { result ≡ emptied self.now }
    {
        ReaderState {
            cursor: self.cursor.for_element(&[], self.place()),
            tag: None,
            failed: None,
            deeper: 0,
            alloc: self.alloc,
        }
    }

    // Goes on with this rest, with the sticky error of that reading. The place of an error is that of the reading, or the first of
    // the elements that are left.
    fn pass(
        &mut self,
        rest: &'a [u8],
        reader: &ReaderState<'a>,
        others: &VecDeque<SetElement<'a>>,
        has_failed: bool,
    )
        ensures { self.new ≡ record self.old { left = rest.now; failed = reader.now.failed } }
    {
        self.cursor.left = rest;
        self.failed = reader.failed;
        if has_failed || self.failed.is_some() {
            self.set_place(reader.place_of_error(), reader.deeper);
        } else if let Some(first) = others.front() {
            self.set_place(first.place(), 0);
        }
    }

    // Goes on with an element of a SET.
    fn turn_to(&mut self, element: SetElement<'a>)
        ensures { self.new ≡ record self.old { left = element.entry.bytes.now; tag = None } }
    {
        self.cursor = self.cursor.for_element(element.bytes, element.end);
        self.tag = None;
    }
}

impl<'a> Chosen<ReaderState<'a>, VecDeque<SetElement<'a>>> {
    ghost use Rattle.std.specs.Prelude.{◌≡◌};

    /// The mode in which the elements are read.
    pub fn mode(&self) -> BERMode
        ensures { result ≡ self.now.reader.mode }
    {
        let reader = &self.reader;
        reader.cursor.mode
    }
}
