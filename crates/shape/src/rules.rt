// Grammar words that have the shape, with the place of each rule: what every crate above the shape test works from.
ghost use Rattle.std.specs.Prelude.{◌≡◌, ◌<◌, ◌≤◌, ◌↔◌, IsSome, IfSome, length};
ghost use Rattle.grammar.specs.Words.{Shaped, nonterminal_count, rule_count, terminal_count};
ghost use Rattle.shape.specs.Ready.{Ready};
ghost use Rattle.shape.specs.Accessors.{LeftOf, RightOf, TerminalsOf};

use std::marker::Model;

// Contracts see the words: the places say nothing that the words do not say.
#[derive(Drop)]
pub struct Rules<'a> {
    words: &'a [u16],
    places: &'a [u16],
}

impl<'a> Model for Rules<'a> {
    ghost use Rattle.std.specs.Prelude.{List, ℕ};
    ghost use Rattle.shape.specs.Ready.{Ready};

    ghost Value = { List ℕ };

    ghost view = { λ rules. rules.words.now };

    ghost invariant = { λ rules. Ready rules.words.now rules.places.now };
}

impl<'a> Rules<'a> {
    // The words as rules, where they have the shape; the table is lent for the places.
    pub fn new(words: &'a [u16], places: &'a mut [u16]) -> Option<Self>
        requires { 256 ≤ length places.old }
        ensures some { IsSome result ↔ Shaped words.now }
        ensures words { IfSome result (λ rules. rules ≡ words.now) }
    {
        if crate::shape(words, places) {
            Some(Self::of(words, places))
        } else {
            None
        }
    }

    // The words as rules, for a caller that has the place of each.
    pub fn of(words: &'a [u16], places: &'a [u16]) -> Self
        requires { Ready words.now places.now }
        ensures { result ≡ words.now }
    {
        Rules { words, places }
    }

    // The words.
    pub fn words(&self) -> &'a [u16]
        ensures value { result.now ≡ self.now }
        ensures shaped { Shaped self.now }
    {
        self.words
    }

    // T, terminals.
    pub fn terminal_count(&self) -> usize
        ensures value { result ≡ terminal_count self.now }
        ensures shaped { Shaped self.now }
    {
        crate::terminal_count(self.words)
    }

    // N, nonterminals.
    pub fn nonterminal_count(&self) -> usize
        ensures value { result ≡ nonterminal_count self.now }
        ensures shaped { Shaped self.now }
    {
        crate::nonterminal_count(self.words)
    }

    // P, rules.
    pub fn rule_count(&self) -> usize
        ensures value { result ≡ rule_count self.now }
        ensures shaped { Shaped self.now }
    {
        crate::rule_count(self.words)
    }

    // The two words of each terminal, END's first: its insert cost and its reliability.
    pub fn terminals(&self) -> &'a [u16]
        ensures terminals { TerminalsOf self.now result.now }
        ensures shaped { Shaped self.now }
    {
        crate::terminal_words(self.words)
    }

    // The number of rule p's left side, from 0: the symbol less 64.
    pub fn left_of(&self, p: usize) -> u16
        requires { p < rule_count self.now }
        ensures left { LeftOf self.now p result }
        ensures shaped { Shaped self.now }
    {
        let places = self.places;
        self.words[usize::from(places[p])]
    }

    // The symbols of rule p's right side.
    pub fn right_side(&self, p: usize) -> &'a [u16]
        requires { p < rule_count self.now }
        ensures right { RightOf self.now p result.now }
        ensures shaped { Shaped self.now }
    {
        let places = self.places;
        let at = usize::from(places[p]) + 2;
        let size = usize::from(self.words[at - 1]);
        &self.words[at..at + size]
    }
}
