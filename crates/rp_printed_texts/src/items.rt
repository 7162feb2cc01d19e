//! The texts of items are read as these items.

ghost use Rattle.std.specs.Prelude.{◌≡◌, ◌++◌, ◌∷◌, List};
ghost use Rattle.rp_run.specs.Items.{Item, item_text, items_text};
ghost use Rattle.rp_printed_texts.specs.ItemLines.{FitsItem, SaysItem};

/// The text of an item says what the item is, and the text of several is that of one after another.
pub fn items_are_read_back()
    // claim: The printed text of each item of a run says which item it is, with its names and numbers
    ensures says { (item : Item) → FitsItem item → SaysItem item (item_text item) }
    ensures joined { (item : Item) (rest : List Item)
        → items_text (item ∷ rest) ≡ item_text item ++ items_text rest }
{}
