//! Lists in texts: what is before, how many items there are, and each of those.

ghost use Rattle.std.specs.Prelude.{◌≡◌, ℕ, List, ◌+◌, ◌≤◌, ◌<◌, ◌++◌, length, take, OnOk, OnErr};
ghost use Rattle.rp_codec.specs.Text.{list_text};

use crate::short_text::ShortText;
use std::alloc::AllocError;

/// An item of a list in a text.
pub(crate) trait Item {
    ghost item_text: { Self → List ℕ };

    /// Adds the item's text, at most 27 bytes.
    fn put(&self, text: &mut ShortText)
        requires { length text.old + 27 ≤ 40 }
        ensures { text.new ≡ text.old ++ item_text self.now };
}

/// Where memory is refused, some of the text may be after the bytes.
fn put_items<T: Item>(out: &mut Vec<u8>, front: &ShortText, items: &[T]) -> Result<(), AllocError>
    requires { length items.now < 256 }
    ensures ok { OnOk result
        (out.new.items ≡ out.old.items ++ list_text T.item_text front.now items.now) }
    ensures err { OnErr result (take (length out.old.items) out.new.items ≡ out.old.items) }
{
    out.extend_from_slice(front.as_slice())?;
    out.push(items.len() as u8)?;
    for item in items {
        let mut text = ShortText::new();
        item.put(&mut text);
        out.extend_from_slice(text.as_slice())?;
    }
    Ok(())
}

/// Puts the text of a report or of a promise for a range after the bytes: its front, and then its
/// list. Where memory is refused, the bytes stay.
#[inline(never)]
pub(crate) fn put_list<T: Item>(
    out: &mut Vec<u8>,
    front: &ShortText,
    items: &[T],
) -> Result<(), AllocError>
    requires { length items.now < 256 }
    ensures ok { OnOk result
        (out.new.items ≡ out.old.items ++ list_text T.item_text front.now items.now) }
    ensures err { OnErr result (out.new.items ≡ out.old.items) }
{
    let start = out.len();
    match put_items(out, front, items) {
        Ok(()) => Ok(()),
        Err(refused) => {
            out.truncate(start);
            Err(refused)
        }
    }
}
