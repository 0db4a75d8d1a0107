// What holds of all updates, whatever a program calls.
ghost use Rattle.switch_model.specs.declared.act.Update.{Update};
ghost use Rattle.script_text.specs.ReadBack.{IsReadAs};
ghost use Rattle.script_text.specs.UpdateText.{update_text};
ghost use Rattle.script_text.specs.Values.{IsUpdateValue};

use ip_text::printed_is_a_word;

/// Reading what `print_update` prints gives the update back: behind a caller's number, or behind
/// `base` where the update isn't alone, its words are those of that update and of no other.
pub fn printed_is_read_back()
    ensures { (update : Update) → IsUpdateValue update → IsReadAs update (update_text update) }
{
    printed_is_a_word();
}
