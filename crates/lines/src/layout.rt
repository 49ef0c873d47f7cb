//! A layout: the levels of a text and of its paragraphs, and its lines.
ghost use Rattle.lines.specs.Bounds.{AreBounds};

use crate::bounds::Bound;
use crate::shown::Shown;
use ucdfiles::mirror_table::MirrorTable;
use units::level::{Level, ParaLevel};

/// One line of a text.
#[derive(Clone, Copy)]
pub struct Line<'a> {
    /// The position of the text at which the line begins.
    pub start: usize,
    /// The position after its last one.
    pub end: usize,
    /// The levels of its positions after L1; a position that X9 removed has none.
    pub levels: &'a [Option<Level>],
    /// Its remaining positions from left to right (L2), as positions of the whole text.
    pub order: &'a [usize],
}

/// The layout of a text, borrowed from the `Scratch` that it was written to.
#[derive(Drop)]
pub struct Layout<'s> {
    paras: &'s [ParaLevel],
    levels: &'s [Option<Level>],
    orders: &'s [usize],
    bounds: &'s [Bound],
    ghost bounded: { AreBounds levels.now orders.now bounds.now },
}

impl<'s> Layout<'s> {
    ghost use Rattle.std.specs.Prelude.{◌≡◌, ◌<◌, ◌≤◌, ◌+◌, length, map};
    ghost use Rattle.std.specs.List.{All};
    ghost use Rattle.units.specs.Isolates.{level_of_para};
    ghost use Rattle.ucdfiles.specs.Tables.{mirror_by};
    ghost use Rattle.lines.specs.Bounds.{AreBounds, Follows, line_between};
    ghost use Rattle.lines.specs.Layouts.{layout_view, line_at, line_shown, view_of, IsLineAt};
    ghost use Rattle.lines.specs.Showing.{remaining_shown};

    pub(crate) fn new(
        paras: &'s [ParaLevel],
        levels: &'s [Option<Level>],
        orders: &'s [usize],
        bounds: &'s [Bound],
    ) -> Layout<'s>
        requires { AreBounds levels.now orders.now bounds.now }
        ensures { view_of result ≡ layout_view paras.now levels.now orders.now bounds.now }
    {
        Layout {
            paras,
            levels,
            orders,
            bounds,
        }
    }

    /// Returns the levels of the paragraphs (P2, P3), in order.
    pub fn para_levels(&self) -> &[ParaLevel]
        ensures { map level_of_para result.now ≡ (view_of self.now).paras }
    {
        self.paras
    }

    /// Returns the levels of all positions of the text after L1; a position that X9 removed has none.
    pub fn levels(&self) -> &[Option<Level>]
        ensures { result.now ≡ (view_of self.now).levels }
    {
        self.levels
    }

    /// Returns the number of lines; an empty text has none.
    pub fn line_count(&self) -> usize
        ensures { result ≡ length (view_of self.now).lines }
    {
        self.bounds.len() - 1
    }

    fn bounds_of(&self, k: usize) -> (Bound, Bound)
        requires { k + 1 < length self.now.bounds.now }
        ensures line { line_at (view_of self.now) k ≡ line_between self.now.orders.now result.0 result.1 }
        ensures rising { Follows result.0 result.1 }
        ensures inside { result.1.position ≤ length self.now.levels.now }
        ensures written { result.1.order ≤ length self.now.orders.now }
    {
        let bounds = self.bounds;
        (bounds[k], bounds[k + 1])
    }

    /// Returns the line with the number `k`, counted from 0.
    pub fn line(&self, k: usize) -> Line<'_>
        requires { k < length (view_of self.now).lines }
        ensures line { IsLineAt (view_of self.now) k result }
        ensures places { All (λ p. p < length (view_of self.now).levels) result.order.now }
        ensures forward { result.start ≤ result.end }
        ensures inside { result.end ≤ length (view_of self.now).levels }
    {
        let (from, to) = self.bounds_of(k);
        let start = from.position as usize;
        let end = to.position as usize;
        Line {
            start,
            end,
            levels: &self.levels[start..end],
            order: &self.orders[from.order as usize..to.order as usize],
        }
    }

    /// Returns the characters of the line with the number `k` from left to right. A character at an odd level is
    /// replaced by its mirrored character, if it has one (L4). `chars` has the characters of the whole text.
    pub fn shown<'a>(&'a self, mirrors: &'a MirrorTable, chars: &'a [char], k: usize) -> Shown<'a>
        requires line { k < length (view_of self.now).lines }
        requires chars { length chars.now ≡ length (view_of self.now).levels }
        ensures { remaining_shown result ≡ line_shown (mirror_by mirrors.now) chars.now (view_of self.now) k }
    {
        let line = self.line(k);
        Shown::new(mirrors, self.levels, chars, line.order)
    }
}
