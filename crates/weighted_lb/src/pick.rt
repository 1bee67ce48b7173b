//! Pickers, and what a pick chooses.
ghost use Rattle.std.specs.Prelude.{◌≡◌, ◌<◌, ◌^◌, ◌%◌, length, All, IfOk};
ghost use Rattle.weight_pick.specs.Weights.{cumulated, AreWeights};
ghost use Rattle.weight_pick.specs.Fractions.{fraction_met};
ghost use Rattle.xc_base.specs.Draws.{draw};
ghost use Rattle.weighted_lb.specs.Pick.{weights_of, picker_of, IsMade, IsWithin, dropped_from, body_choice, choice};

use crate::picker::{Chosen, Part, PickBody, Picker};
use std::alloc::{AllocError, Global};
use weight_pick::{DropRule, at_weight, cumulate, fraction_met};
use xc_base::{List, Memory, draw};

/// A picker with these drop rules and these READY localities, or want of memory. Weights are unsigned
/// numbers of 32 bits that sum to 1 to 4,294,967,295.
pub fn make_picker(
    alloc: Global,
    drops: &List<DropRule>,
    parts: List<Part>,
) -> Result<Picker, Memory>
    requires weights { AreWeights (weights_of parts) }
    requires ready { All (λ part. 0 < length part.ready) parts }
    requires few { length parts < 2 ^ 31 }
    ensures { IfOk result (λ picker. picker ≡ picker_of drops.now parts) }
{
    let sums = sums_of(alloc, parts.as_slice())?;
    Ok(Picker {
        drops: copy_rules(alloc, drops.as_slice())?,
        body: PickBody::Ready { parts, sums },
    })
}

/// A copy of drop rules, or want of memory.
pub fn copy_rules(alloc: Global, drops: &[DropRule]) -> Result<List<DropRule>, Memory>
    ensures { IfOk result (λ copies. copies ≡ drops.now) }
{
    let mut copies = List::new(alloc);
    for rule in drops {
        copies.push(DropRule {
            category: rule.category.clone()?,
            fraction: rule.fraction,
        })?;
    }
    Ok(copies)
}

/// The sums of the weights up to each part.
fn sums_of(alloc: Global, parts: &[Part]) -> Result<List<u64>, Memory>
    requires weights { AreWeights (weights_of parts.now) }
    requires few { length parts.now < 2 ^ 31 }
    ensures { IfOk result (λ sums. sums ≡ cumulated (weights_of parts.now)) }
{
    let weights: Vec<u32> = parts.iter().map(|part| part.weight).collect(alloc)?;
    cumulate(alloc, weights.as_slice()).map_err(|_| AllocError)
}

/// What a pick of this word chooses, without memory. Drop rule j, from 1, drops it where draw j of the
/// word meets the rule's fraction, and the first that does counts. Else the body says what is chosen,
/// with draw 0 for the locality by weight.
pub fn choose(picker: &Picker, word: u64) -> Chosen
    requires made { IsMade picker.now.body }
    requires few { length picker.now.drops < 2 ^ 32 }
    ensures choice { result ≡ choice picker.now word }
    ensures within { IsWithin result picker.now.body }
{
    match first_drop(picker.drops.as_slice(), word) {
        Some(rule) => Chosen::Drop(rule),
        None => body_choice(&picker.body, word),
    }
}

/// The number of the first rule that drops the pick, from 1.
fn first_drop(drops: &[DropRule], word: u64) -> Option<u32>
    requires { length drops.now < 2 ^ 32 }
    ensures { result ≡ dropped_from 1 word drops.now }
{
    for (i, rule) in drops.iter().enumerate() {
        let number = i as u32 + 1;
        if is_met(rule, word, number) {
            return Some(number);
        }
    }
    None
}

/// Whether the rule of this number drops the pick, which it does by the draw of its number.
fn is_met(rule: &DropRule, word: u64, number: u32) -> bool
    ensures { result ≡ fraction_met rule.now.fraction (draw word number) }
{
    fraction_met(rule.fraction, draw(word, number))
}

/// What is chosen behind the drop rules.
fn body_choice(body: &PickBody, word: u64) -> Chosen
    requires { IsMade body.now }
    ensures choice { result ≡ body_choice body.now word }
    ensures within { IsWithin result body.now }
{
    match body {
        PickBody::Ready { sums, .. } => Chosen::Part(at_weight(sums, draw(word, 0))),
        PickBody::Queue => Chosen::Queue,
        PickBody::Fail(_) => Chosen::Fail,
    }
}

/// The place of the endpoint whose turn it is, from 0, where `turn` earlier picks took one of this part.
/// It takes no memory.
pub fn endpoint(part: &Part, turn: u64) -> u32
    requires some { 0 < length part.now.ready }
    requires few { length part.now.ready < 2 ^ 32 }
    ensures place { result ≡ turn % length part.now.ready }
    ensures within { result < length part.now.ready }
{
    (turn % part.ready.len() as u64) as u32
}
