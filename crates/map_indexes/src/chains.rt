//! Chains of links.

ghost use Rattle.std.specs.Prelude.{◌≡◌, ◌≢◌, ◌+◌, ◌<◌, ◌^◌, ℕ, length, None, Some, IfOk, IfSome, IsSome, nat_le, replicate, slice_index_or};
ghost use Rattle.map_indexes.specs.LastBelow.{last_below, count_below};
ghost use Rattle.map_indexes.specs.Chains.{in_chain, chain_place, IsChained, IsBehind, heads_led, nexts_led, led_from, link_in};

use crate::numbers::OptionalNumbers;
use std::alloc::{AllocError, Global};

// As many links as a look-up follows at most.
const LONGEST_CHAIN: u32 = 8;

/// A link: its chain, its place, and the place of the next link.
#[derive(Clone, Copy)]
pub struct Link {
    pub chain: u32,
    pub place: u32,
    pub next: Option<usize>,
}

// Makes a link of a chain, or its start, lead to another link.
fn lead(
    heads: &mut OptionalNumbers,
    nexts: &mut OptionalNumbers,
    chain: usize,
    from: Option<usize>,
    to: Option<usize>,
)
    requires chain { chain < length heads.old }
    requires from { IfSome from (λ k. k < length nexts.old) }
    requires to { IfSome to (λ k. k + 1 < 2 ^ 32) }
    ensures heads { heads.new ≡ heads_led from chain to heads.old }
    ensures nexts { nexts.new ≡ nexts_led from to nexts.old }
{
    match from {
        Some(k) => nexts.set(k, to),
        None => heads.set(chain, to),
    }
}

/// Chains of links. The links of a chain are in descending order of their places.
#[derive(Drop)]
pub struct Chains {
    count: u32,
    heads: OptionalNumbers,
    // By place of a link: its chain, and the place of the next link in that.
    chains: OptionalNumbers,
    nexts: OptionalNumbers,
    ghost counted: { length heads ≡ count },
    ghost small: { count < 2 ^ 32 },
    ghost few: { length chains < 2 ^ 32 },
    ghost whole: { length nexts ≡ length chains },
    ghost chained: { IsChained heads (length chains) (link_in chains nexts) },
}

impl Chains {
    /// Chains without links, and room for links at this many places.
    pub fn new(alloc: Global, count: u32, room: u32) -> Result<Self, AllocError>
        ensures count { IfOk result (λ c. c.count ≡ count) }
        ensures empty { IfOk result (λ c. (k : ℕ) → link_in c.chains c.nexts k ≡ None) }
        ensures room { IfOk result (λ c. length c.chains ≡ room) }
    {
        let heads = OptionalNumbers::new(alloc, count)?;
        let chains = OptionalNumbers::new(alloc, room)?;
        let nexts = OptionalNumbers::new(alloc, room)?;
        Ok(Chains {
            count,
            heads,
            chains,
            nexts,
        })
    }

    /// Returns how many chains there are.
    pub fn count(&self) -> u32
        ensures { result ≡ self.now.count }
    {
        self.count
    }

    /// The place of the first link of a chain.
    pub fn first(&self, chain: u32) -> Option<usize>
        requires { chain < self.now.count }
        ensures { result ≡ last_below (in_chain (link_in self.now.chains self.now.nexts) chain)
            (length self.now.chains) }
    {
        self.heads.at(chain as usize)
    }

    /// The place of the link after the one at a place, in its chain.
    pub fn next(&self, at: usize) -> Option<usize>
        requires { at < length self.now.chains }
        ensures { result ≡ slice_index_or self.now.nexts at None }
    {
        self.nexts.at(at)
    }

    /// Returns whether a chain has as many links as a look-up may have to follow.
    pub fn is_long(&self, chain: u32) -> bool
        requires { chain < self.now.count }
        ensures { result ≡ nat_le LONGEST_CHAIN (count_below
            (in_chain (link_in self.now.chains self.now.nexts) chain)
            (length self.now.chains)) }
    {
        let mut next = self.first(chain);
        for followed in 0..LONGEST_CHAIN {
            let Some(at) = next else {
                return false;
            };
            next = self.nexts.at(at);
        }
        true
    }

    // The link of a chain right behind which a link at a place belongs. None: at the front of the
    // chain.
    fn behind(&self, chain: u32, at: usize) -> Option<usize>
        requires { chain < self.now.count }
        ensures { IsBehind (in_chain (link_in self.now.chains self.now.nexts) chain) at result }
    {
        let mut from = None;
        let mut next = self.first(chain);
        while let Some(k) = next {
            if k <= at {
                return from;
            }
            from = Some(k);
            next = self.nexts.at(k);
        }
        from
    }

    // What a link of a chain, or its start, leads to.
    fn after(&self, chain: u32, from: Option<usize>) -> Option<usize>
        requires chain { chain < self.now.count }
        requires from { IfSome from (λ k. k < length self.now.nexts) }
        ensures { result ≡ led_from from chain self.now.heads self.now.nexts }
    {
        match from {
            Some(k) => self.nexts.at(k),
            None => self.heads.at(chain as usize),
        }
    }

    /// Puts a link at a free place into a chain.
    pub fn add(&mut self, chain: u32, at: usize)
        requires chain { chain < self.old.count }
        requires at { at < length self.old.chains }
        requires free { link_in self.old.chains self.old.nexts at ≡ None }
        ensures added { chain_place (link_in self.new.chains self.new.nexts at) ≡ Some (chain, at) }
        ensures others { (j : ℕ) → j ≢ at → chain_place (link_in self.new.chains self.new.nexts j)
            ≡ chain_place (link_in self.old.chains self.old.nexts j) }
        ensures room { length self.new.chains ≡ length self.old.chains }
        ensures count { self.new.count ≡ self.old.count }
    {
        let from = self.behind(chain, at);
        let next = self.after(chain, from);
        self.chains.set(at, Some(chain as usize));
        self.nexts.set(at, next);
        lead(
            &mut self.heads,
            &mut self.nexts,
            chain as usize,
            from,
            Some(at),
        );
    }

    /// Takes the link at a place out of its chain.
    pub fn remove(&mut self, at: usize)
        requires { IsSome (link_in self.old.chains self.old.nexts at) }
        ensures removed { link_in self.new.chains self.new.nexts at ≡ None }
        ensures others { (j : ℕ) → j ≢ at → chain_place (link_in self.new.chains self.new.nexts j)
            ≡ chain_place (link_in self.old.chains self.old.nexts j) }
        ensures room { length self.new.chains ≡ length self.old.chains }
        ensures count { self.new.count ≡ self.old.count }
    {
        let Some(chain) = self.chains.at(at) else {
            unreachable!()
        };
        let next = self.nexts.at(at);
        let from = self.behind(chain as u32, at);
        self.chains.set(at, None);
        lead(&mut self.heads, &mut self.nexts, chain, from, next);
    }
}
