//! Lists of refused pattern texts that grow.
ghost use Rattle.std.specs.Prelude.{◌≡◌, ◌++◌, length, take, OnErr, OnOk};

use xc_base::{List, Memory, Text};

/// Adds texts at the end. Where memory runs out, some of them may have been added.
#[tactic(auto, using(crate::proofs::TextListLemmas::front_stays))]
fn push_texts(list: &mut List<Text>, texts: &[Text]) -> Result<(), Memory>
    ensures ok { OnOk result (list.new ≡ list.old ++ texts.now) }
    ensures front { take (length list.old) list.new ≡ list.old }
{
    for text in texts {
        list.push(text.clone()?)?;
    }
    Ok(())
}

/// Adds texts at the end, all or none.
pub(crate) fn add_texts(list: &mut List<Text>, texts: &[Text]) -> Result<(), Memory>
    ensures ok { OnOk result (list.new ≡ list.old ++ texts.now) }
    ensures err { OnErr result (list.new ≡ list.old) }
{
    let before = list.len();
    match push_texts(list, texts) {
        Ok(()) => Ok(()),
        Err(fault) => {
            list.truncate(before);
            Err(fault)
        }
    }
}

/// Adds texts at the end of two lists, all to both or none.
#[tactic(auto, using(crate::proofs::TextListLemmas::taken_front))]
pub(crate) fn add_to_both(
    one: &mut List<Text>,
    other: &mut List<Text>,
    texts: &[Text],
) -> Result<(), Memory>
    ensures one { OnOk result (one.new ≡ one.old ++ texts.now) }
    ensures other { OnOk result (other.new ≡ other.old ++ texts.now) }
    ensures err { OnErr result (one.new ≡ one.old) }
    ensures same { OnErr result (other.new ≡ other.old) }
{
    let before = one.len();
    add_texts(one, texts)?;
    match add_texts(other, texts) {
        Ok(()) => Ok(()),
        Err(fault) => {
            one.truncate(before);
            Err(fault)
        }
    }
}
