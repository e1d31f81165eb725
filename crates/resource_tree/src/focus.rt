//! The focus that a text selects.

ghost use Rattle.std.specs.Prelude.{◌≡◌, ◌<◌, ◌≤◌, ◌∷◌, [], List, ℕ, true, length, IfOk, IfSome, MatchOption, position};
ghost use Rattle.std.specs.List.{list_all};
ghost use Rattle.pn_types.specs.GoodNames.{is_good_name};
ghost use Rattle.resource_tree.specs.FocusTexts.{Part, AreParts, OneSpelling, is_comma, is_part, below_text, part_text, parts_text};
ghost use Rattle.resource_tree.specs.Foci.{code_named, hart_named, object_named, with_node, focus_of, IsFocusOf, IsReading, OneReading, OneSelection, Selects};

use crate::code::CodeTree;
use crate::fault::FocusFault;
use crate::form::form_fault;
use crate::harts::hart_named;
use crate::objects::Objects;
use crate::tree::Tree;
use pn_types::{Axis, CodePart, Focus, HartNo, MAX_HARTS};

/// The greatest number of parts of a focus text.
const MOST_PARTS: u32 = 3;

/// A part's hierarchy, and the text after it.
fn split_part(part: &[u8]) -> Option<(Axis, &[u8])>
    ensures { (p : Part) → part.now ≡ part_text p → MatchOption result ⊥ (λ r. (r.0 ≡ p.axis) × (r.1.now ≡ below_text p.names)) }
{
    if let Some(below) = part.strip_prefix(b"/Code") {
        return Some((Axis::Code, below));
    }
    if let Some(below) = part.strip_prefix(b"/Machine") {
        return Some((Axis::Machine, below));
    }
    let below = part.strip_prefix(b"/SyncObject")?;
    Some((Axis::SyncObject, below))
}

/// The node of the code that names select, which are given each after a `/`.
fn code_node(code: &CodeTree, below: &[u8]) -> Option<CodePart>
    ensures { (names : List (List ℕ)) → length names ≤ 2 → list_all is_good_name names ≡ true
        → below.now ≡ below_text names → result ≡ code_named code.now names }
{
    let Some((_, path)) = below.split_first() else {
        return Some(CodePart::All);
    };
    if path.contains(&b'/') {
        return Some(CodePart::Procedure(code.proc_at(path)?));
    }
    Some(CodePart::Module(code.module_named(path)?))
}

/// The node of the machine that names select.
fn hart_node(harts: u32, below: &[u8]) -> Option<Option<HartNo>>
    requires { harts ≤ MAX_HARTS }
    ensures { (names : List (List ℕ)) → length names ≤ 1 → below.now ≡ below_text names → result ≡ hart_named harts names }
{
    let Some((_, name)) = below.split_first() else {
        return Some(None);
    };
    let hart = hart_named(name, harts)?;
    Some(Some(hart))
}

/// The node of the objects that names select.
fn object_node(objects: &Objects, below: &[u8]) -> Option<Option<u32>>
    ensures { (names : List (List ℕ)) → length names ≤ 1 → below.now ≡ below_text names → result ≡ object_named objects.now names }
{
    let Some((_, name)) = below.split_first() else {
        return Some(None);
    };
    let number = objects.named(name)?;
    Some(Some(number))
}

/// Where the first comma stands.
fn first_comma(text: &[u8]) -> Option<usize>
    ensures { result ≡ position is_comma text.now }
{
    text.iter().position(|byte| *byte == b',')
}

/// The first part of a text, and the text after its comma, where it has one.
fn split_comma(text: &[u8]) -> (&[u8], Option<&[u8]>)
    ensures part { (p : Part) → (ps : List Part) → is_part p ≡ true → text.now ≡ parts_text (p ∷ ps) → result.0.now ≡ part_text p }
    ensures rest { (p : Part) → (ps : List Part) → is_part p ≡ true → text.now ≡ parts_text (p ∷ ps)
        → MatchOption result.1 (ps ≡ []) (λ rest. (0 < length ps) × (rest.now ≡ parts_text ps)) }
{
    match first_comma(text) {
        Some(end) => (&text[..end], Some(&text[end + 1..])),
        None => (text, None),
    }
}

impl Tree {
    /// The focus with the node of a part.
    fn with_part(&self, focus: &Focus, part: &[u8]) -> Option<Focus>
        ensures { (p : Part) → is_part p ≡ true → part.now ≡ part_text p → result ≡ with_node self.now focus.now p.axis p.names }
    {
        let (axis, below) = split_part(part)?;
        let mut focus = *focus;
        match axis {
            Axis::Code => focus.code = code_node(&self.code, below)?,
            Axis::Machine => focus.hart = hart_node(self.harts, below)?,
            Axis::SyncObject => focus.object = object_node(&self.objects, below)?,
        }
        Some(focus)
    }

    /// The focus of a focus text, or the first part that names no node.
    fn named(&self, text: &[u8]) -> Result<Focus, FocusFault>
        ensures { (ps : List Part) → AreParts ps → text.now ≡ parts_text ps → result ≡ focus_of self.now ps }
    {
        let mut focus = Focus {
            code: CodePart::All,
            hart: None,
            object: None,
        };
        let mut rest = text;
        for number in 0..MOST_PARTS {
            let (part, behind) = split_comma(rest);
            let Some(next) = self.with_part(&focus, part) else {
                return Err(FocusFault::NoSuchNode(number));
            };
            focus = next;
            let Some(behind) = behind else {
                return Ok(focus);
            };
            rest = behind;
        }
        Ok(focus)
    }

    /// Returns the focus of a text: one to three parts joined by commas, each hierarchy at most once, in any order, where an
    /// omitted one is selected as a whole.
    ///
    /// # Errors
    ///
    /// `Form` where the text isn't one of a focus, else `NoSuchNode` where a name isn't in the tree.
    pub fn focus(&self, text: &[u8]) -> Result<Focus, FocusFault>
        ensures reading { IsReading self.now text.now result }
        ensures in_tree { IfOk result (IsFocusOf self.now) }
    {
        if let Some(place) = form_fault(text) {
            return Err(FocusFault::Form(place as u64));
        }
        self.named(text)
    }

    /// Returns the focus that a text selects. None exactly where the text hasn't the form of a focus, or names no node.
    pub fn selected(&self, text: &[u8]) -> Option<Focus>
        ensures selects { Selects self.now text.now result }
        ensures in_tree { IfSome result (IsFocusOf self.now) }
    {
        match self.focus(text) {
            Ok(focus) => Some(focus),
            Err(_) => None,
        }
    }
}

/// A focus text is spelled by one list of parts, and any text is read as one focus or has one fault.
pub fn one_reading()
    ensures spelling { OneSpelling }
    ensures reading { OneReading }
    ensures selection { OneSelection }
{}
