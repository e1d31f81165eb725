//! The items in their order, those of an include in its place.

ghost use Rattle.std.specs.Prelude.{◌≡◌};
ghost use Rattle.mdl_check.specs.Placed.{placed_item, entry};

use mdl_ast::Item;
use pn_types::Focus;
use std::marker::Model;

/// An item at its place.
#[derive(Drop)]
pub(crate) struct PlacedItem<'a> {
    line: u32,
    item: &'a Item,
}

impl<'a> Model for PlacedItem<'a> {
    ghost use Rattle.mdl_check.specs.Placed.{PlacedItem, placed_item};

    ghost Value = { PlacedItem };

    ghost view = { λ s. placed_item s.line s.item.now };
}

impl<'a> PlacedItem<'a> {
    /// An item at this line.
    pub(crate) fn new(line: u32, item: &'a Item) -> PlacedItem<'a>
        ensures { result ≡ placed_item line item.now }
    {
        PlacedItem { line, item }
    }

    /// Its line.
    pub(crate) fn line(&self) -> u32
        ensures { result ≡ self.now.line }
    {
        self.line
    }

    /// The item.
    pub(crate) fn item(&self) -> &'a Item
        ensures { result.now ≡ self.now.item }
    {
        self.item
    }
}

/// An item at its place, with the focus that it selects if it is a wish.
#[derive(Drop)]
pub(crate) struct Entry<'a> {
    line: u32,
    item: &'a Item,
    focus: Option<Focus>,
}

impl<'a> Model for Entry<'a> {
    ghost use Rattle.mdl_check.specs.Placed.{Entry, entry};

    ghost Value = { Entry };

    ghost view = { λ e. entry e.line e.item.now e.focus };
}

impl<'a> Entry<'a> {
    /// An item at this line with this focus.
    pub(crate) fn new(placed: &PlacedItem<'a>, focus: Option<Focus>) -> Entry<'a>
        ensures { result ≡ entry placed.now.line placed.now.item focus }
    {
        Entry {
            line: placed.line(),
            item: placed.item(),
            focus,
        }
    }

    /// Its line.
    pub(crate) fn line(&self) -> u32
        ensures { result ≡ self.now.line }
    {
        self.line
    }

    /// The item.
    pub(crate) fn item(&self) -> &'a Item
        ensures { result.now ≡ self.now.item }
    {
        self.item
    }

    /// The focus that the item selects.
    pub(crate) fn focus(&self) -> Option<Focus>
        ensures { result ≡ self.now.focus }
    {
        self.focus
    }
}
