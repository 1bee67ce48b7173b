//! The children of a priority balancer.
ghost use Rattle.std.specs.Prelude.{◌≡◌, ◌<◌, ◌^◌, ◌&&◌, ◌||◌, ◌-◌, Some, None, not, if◌then◌else◌, length, map, get_or, replicate, All, IfSome, IfOk, unwrap_or};
ghost use Rattle.std.specs.Option.{option_map_or, option_or};
ghost use Rattle.std.specs.List.{position_from};
ghost use Rattle.priority_lb.specs.ChildWalk.{chosen, stops, is_ready, is_connecting};
ghost use Rattle.priority_lb.specs.RunningTimers.{first_end};
ghost use Rattle.priority_lb.specs.Step.{fresh, seen, walk, step, carried, view_of};

use crate::facts::{ChildFacts, FRESH, is_connecting, is_ready};
use crate::view::ChildView;
use std::alloc::Global;
use std::marker::Model;
use xc_base::{Memory, State, Time};

/// The children of a priority balancer in their order, of which there are 1 to 2^32 - 1 (gRFC A56).
/// Contracts see them as what is kept of each.
#[derive(Drop)]
pub struct Children {
    alloc: Global,
    children: Vec<ChildFacts>,
}

impl Model for Children {
    ghost use Rattle.std.specs.Prelude.{List, length, ◌<◌, ◌^◌};
    ghost use Rattle.priority_lb.specs.declared.facts.ChildFacts.{ChildFacts};

    ghost Value = { List ChildFacts };

    ghost view = { λ c. c.children.items };

    ghost invariant = { λ c. (0 < length c.children.items) × (length c.children.items < 2 ^ 32) };
}

impl Children {
    /// As many children, which no update has seen, or want of memory.
    pub fn new(alloc: Global, count: u32) -> Result<Children, Memory>
        requires { 0 < count }
        ensures { IfOk result (λ children. children ≡ replicate count fresh) }
    {
        let children = vec![in alloc; FRESH; count as usize]?;
        Ok(Children { alloc, children })
    }

    /// One update with the state of each child and the time in milliseconds. It answers the place of
    /// the chosen child, from 0, and takes no memory. The first child that is reached and READY or
    /// pending is chosen, else the first that is CONNECTING, else the last.
    pub fn update(&mut self, states: &[State], now: Time) -> u32
        requires { length states.now ≡ length self.old }
        ensures step { self.new ≡ step now self.old states.now }
        ensures chosen { result ≡ chosen (map seen (walk now self.old states.now)) }
        ensures count { length self.new ≡ length self.old }
        ensures within { result < length self.old }
    {
        update_all(&mut self.children, states, now)
    }

    /// When the first timer of a child that runs ends, in milliseconds, or the last of all times where none runs. It takes no
    /// memory.
    pub fn first_end(&self) -> Time
        ensures { result.0 ≡ first_end self.now }
    {
        Time(first_end(&self.children))
    }

    /// What is seen of the child at a place, from 0. It takes no memory.
    pub fn view(&self, place: u32) -> ChildView
        requires { place < length self.now }
        ensures { result ≡ view_of (get_or self.now place fresh) }
    {
        self.children[place as usize].view()
    }

    /// The children of a new list, each as it was at its old place, or one that no update has seen; or
    /// want of memory.
    pub fn carried(&self, from: &[Option<u32>]) -> Result<Children, Memory>
        requires some { 0 < length from.now }
        requires few { length from.now < 2 ^ 32 }
        requires places { All (λ place. IfSome place (λ p. p < length self.now)) from.now }
        ensures { IfOk result (λ children. children ≡ carried from.now self.now) }
    {
        let mut children = Vec::with_capacity(self.alloc, from.len())?;
        for place in from {
            children.push(carried_from(&self.children, *place))?;
        }
        Ok(Children {
            alloc: self.alloc,
            children,
        })
    }
}

/// When the first timer of these children that runs ends.
fn first_end(children: &[ChildFacts]) -> u64
    ensures { result ≡ first_end children.now }
{
    let mut end = u64::MAX;
    for child in children {
        end = end.min(child.first_end().0);
    }
    end
}

/// The child that was at the place, or one that no update has seen.
fn carried_from(children: &[ChildFacts], place: Option<u32>) -> ChildFacts
    requires { IfSome place (λ p. p < length children.now) }
    ensures { result ≡ option_map_or (λ p. get_or children.now p fresh) place fresh }
{
    match place {
        Some(place) => children[place as usize],
        None => FRESH,
    }
}

/// Updates each child, and answers the place of the chosen one.
fn update_all(children: &mut [ChildFacts], states: &[State], now: Time) -> u32
    requires same { length states.now ≡ length children.old }
    requires some { 0 < length children.old }
    requires few { length children.old < 2 ^ 32 }
    ensures step { children.new ≡ step now children.old states.now }
    ensures chosen { result ≡ chosen (map seen (walk now children.old states.now)) }
    ensures within { result < length children.old }
{
    let stop = walk(children, states, now);
    let connecting = first_connecting(children);
    let place = place_or_last(stop, connecting, children.len());
    place as u32
}

/// Updates each child, and answers the place at which the walk stops.
fn walk(children: &mut [ChildFacts], states: &[State], now: Time) -> Option<usize>
    requires { length states.now ≡ length children.old }
    ensures step { children.new ≡ step now children.old states.now }
    ensures stop { result ≡ position_from (λ c. c.reached && stops c) 0 (map seen (walk now children.old states.now)) }
{
    let mut reached = true;
    let mut behind = false;
    let mut stop = None;
    for i in 0..children.len() {
        let next = children[i].after(reached, behind, states[i], now);
        children[i] = next;
        let stops = next.stops();
        stop = first_stop(stop, stops_at(reached, stops), i);
        behind = is_behind(behind, reached, next);
        reached = passes(reached, stops);
    }
    stop
}

/// The first place at which a walk stops, where it may stop at one place more.
fn first_stop(stop: Option<usize>, stops: bool, place: usize) -> Option<usize>
    ensures { result ≡ option_or stop (if stops then Some place else None) }
{
    stop.or(stops.then_some(place))
}

/// Whether a walk stops at a child.
fn stops_at(reached: bool, stops: bool) -> bool
    ensures { result ≡ (reached && stops) }
{
    reached && stops
}

/// Whether a walk goes on behind a child.
fn passes(reached: bool, stops: bool) -> bool
    ensures { result ≡ (reached && not stops) }
{
    reached && !stops
}

/// Whether the next child stands behind a chosen one that is READY.
fn is_behind(behind: bool, reached: bool, child: ChildFacts) -> bool
    ensures { result ≡ (behind || (reached && is_ready child.state)) }
{
    behind || (reached && is_ready(child.state))
}

/// The place of the first child that is CONNECTING.
fn first_connecting(children: &[ChildFacts]) -> Option<usize>
    ensures { result ≡ position_from (λ child. is_connecting child.state) 0 children.now }
{
    children.iter().position(|child| is_connecting(child.state))
}

/// The place at which the walk stops, else that of the first CONNECTING child, else the last one.
fn place_or_last(stop: Option<usize>, connecting: Option<usize>, len: usize) -> usize
    requires { 0 < len }
    ensures { result ≡ unwrap_or stop (unwrap_or connecting (len - 1)) }
{
    stop.or(connecting).unwrap_or(len - 1)
}
