//! Nodes of the tree of brackets, which are shared and keep their length, height and depth.

ghost use Rattle.std.specs.Prelude.{◌≡◌, ℕ, ◌+◌, ◌<◌, ◌^◌, ◌↔◌, ◌≤◌, Bool, false, IsTrue, IfOk};
ghost use Rattle.text_pos.specs.KindSet.{has_kind};
ghost use Rattle.text_pos.specs.Lengths.{plus};
ghost use Rattle.tree_defs.specs.Tree.{Tree, Text, Bracket, Lone, Two, Three, Passes, CanBeReused, depth, is_cut, is_bare, misses};
ghost use Rattle.tree_defs.specs.Shape.{and_closer, length_of, height, Fits, IsSome};
ghost use Rattle.bracket_ast.specs.View.{tree_of, Keeps};
ghost use Rattle.bracket_ast.specs.Sorts.{sort_of};
ghost use Rattle.bracket_ast.specs.Shapes.{Sound, SoundInside, ArePair, IsInside, closer_length, IsAsHigh, nows, or_nothing, pair_of, list_tree, children_of, IsBracketTree, kind_of, IsPairTree, opener_of, inside_of, closer_of};

use std::alloc::{AllocError, Global};
use std::marker::Model;
use std::rc::Rc;
use text_pos::{Kinds, Length, add};

/// What a node is.
#[derive(Clone, Copy, Debug, PartialEq, Eq)]
pub enum Sort {
    Text,
    Bracket,
    Unexpected,
    Pair,
    List,
}

/// A node of the tree of brackets, as in VS Code's bracketPairsTree: a text, a bracket, a closer of nothing open, a
/// pair, or a list of two or three nodes of one height. It keeps the length, the height, the depth, and what else a
/// parse asks of the whole node. Nodes are shared and never change.
#[cycle(node)]
#[derive(Drop)]
pub struct Node {
    shared: Rc<Inner>,
}

#[cycle(node)]
#[derive(Drop)]
struct Inner {
    extent: Length,
    height: u32,
    depth: u32,
    cut: bool,
    bare: bool,
    missing: Kinds,
    parts: Parts,
}

#[cycle(node)]
#[derive(Drop)]
enum Parts {
    Text,
    Bracket(u32),
    Unexpected,
    Pair(Node, Option<Node>, Option<Node>),
    Two([Node; 2]),
    Three([Node; 3]),
}

impl Model for Node {
    ghost use Rattle.tree_defs.specs.Tree.{Tree};
    ghost use Rattle.tree_defs.specs.TreeCode.{tree_code};

    ghost Value = { Tree };

    ghost coded = { tree_code };

    ghost use Rattle.bracket_ast.specs.Weight.{weight};
    ghost use Rattle.bracket_ast.specs.View.{tree_of, Keeps};

    ghost view = { λ a. tree_of a.shared.value };

    ghost invariant = { λ a. Keeps a.shared.value };

    ghost size = { weight };

    ghost use Rattle.std.proofs.Common.{arith};
    ghost use Rattle.bracket_ast.specs.Falls.{parts_fall};

    ghost size_decreases = { λ a h. let p = parts_fall a.shared.value.extent a.shared.value.cut a.shared.value.missing a.shared.value.parts h.made in Prim.omega arith };
}

/// What is read of a node.
impl Node {
    /// The same node, shared. What holds of each node is told here.
    pub fn copy(&self) -> Result<Node, AllocError>
        ensures same { IfOk result (λ t. t ≡ self.now) }
        ensures sound { Sound self.now }
    {
        Ok(Node {
            shared: self.shared.clone()?,
        })
    }

    /// How long the node's text is.
    pub fn length(&self) -> Length
        ensures value { result ≡ length_of self.now }
        ensures sound { Sound self.now }
    {
        self.shared.extent
    }

    /// 0 for a node that is no list, and one more than its children's for a list.
    pub fn height(&self) -> u32
        ensures value { result ≡ height self.now }
        ensures sound { Sound self.now }
    {
        self.shared.height
    }

    /// The most pairs nested in the node.
    pub fn depth(&self) -> u32
        ensures { result ≡ depth self.now }
    {
        self.shared.depth
    }

    /// Whether a text in the node holds an opener that was met at the nesting limit.
    pub fn is_cut(&self) -> bool
        ensures { result ≡ is_cut self.now }
    {
        self.shared.cut
    }

    /// Whether the node has no row: no pair and no unexpected closer.
    pub fn is_bare(&self) -> bool
        ensures { result ≡ is_bare self.now }
    {
        self.shared.bare
    }

    /// All kinds that unexpected closers in the node close.
    pub fn missing(&self) -> Kinds
        ensures { (k : ℕ) → has_kind result k ≡ misses self.now k }
    {
        self.shared.missing
    }

    pub fn sort(&self) -> Sort
        ensures { result ≡ sort_of self.now }
    {
        match &self.shared.parts {
            Parts::Text => Sort::Text,
            Parts::Bracket(_) => Sort::Bracket,
            Parts::Unexpected => Sort::Unexpected,
            Parts::Pair(_, _, _) => Sort::Pair,
            Parts::Two(_) | Parts::Three(_) => Sort::List,
        }
    }

    /// The children of a list, and none of any other node.
    pub fn children(&self) -> &[Node]
        ensures { result.now ≡ children_of self.now }
    {
        match &self.shared.parts {
            Parts::Two(both) => both,
            Parts::Three(all) => all,
            _ => &[],
        }
    }

    /// The kind of a bracket.
    pub fn kind(&self) -> u32
        requires { IsBracketTree self.now }
        ensures { result ≡ kind_of self.now }
    {
        match self.shared.parts {
            Parts::Bracket(kind) => kind,
            _ => 0,
        }
    }

    /// The opener of a pair.
    pub fn opener(&self) -> &Node
        requires { IsPairTree self.now }
        ensures { result.now ≡ opener_of self.now }
    {
        match &self.shared.parts {
            Parts::Pair(opener, _, _) => opener,
            _ => unreachable!(),
        }
    }

    /// What lies between a pair's opener and its closer, if anything does.
    pub fn inside(&self) -> Option<&Node>
        requires { IsPairTree self.now }
        ensures { nows result ≡ inside_of self.now }
    {
        match &self.shared.parts {
            Parts::Pair(_, Some(inside), _) => Some(inside),
            _ => None,
        }
    }

    /// The closer of a pair, if it has one.
    pub fn closer(&self) -> Option<&Node>
        requires { IsPairTree self.now }
        ensures { nows result ≡ closer_of self.now }
    {
        match &self.shared.parts {
            Parts::Pair(_, _, Some(closer)) => Some(closer),
            _ => None,
        }
    }

    /// Whether the node keeps its rows below open brackets of these kinds, so many of them.
    pub fn can_be_reused(&self, above: Kinds, level: u32, limit: u32) -> bool
        ensures { IsTrue result ↔ CanBeReused above level limit self.now }
    {
        match &self.shared.parts {
            Parts::Bracket(_) => false,
            Parts::Pair(_, _, None) => false,
            Parts::Two(both) => self.passes(above, level, limit)
                && both[1].can_be_reused(above, level, limit),
            Parts::Three(all) => self.passes(above, level, limit)
                && all[2].can_be_reused(above, level, limit),
            _ => self.passes(above, level, limit),
        }
    }

    fn passes(&self, above: Kinds, level: u32, limit: u32) -> bool
        ensures { IsTrue result ↔ Passes above level limit self.now }
    {
        let cut = self.is_cut();
        let fits = fits(self.depth(), level, limit);
        let apart = self.apart(above);
        !cut && fits && apart
    }

    /// Whether no unexpected closer of the node closes one of these kinds.
    fn apart(&self, above: Kinds) -> bool
        ensures { IsTrue result ↔ ((k : ℕ) → IsTrue (has_kind above k) → misses self.now k ≡ false) }
    {
        !self.missing().meets(above)
    }
}

/// How nodes are made.
impl Node {
    /// A text without a mark that has a row; `cut` says that it holds an opener met at the nesting limit.
    pub fn text(alloc: Global, extent: Length, cut: bool) -> Result<Node, AllocError>
        requires { IsSome extent }
        ensures { IfOk result (λ t. t ≡ Text extent cut) }
    {
        share(
            alloc,
            Inner {
                extent,
                height: 0,
                depth: 0,
                cut,
                bare: true,
                missing: Kinds::empty(),
                parts: Parts::Text,
            },
        )
    }

    /// An opener or a closer of a pair.
    pub fn bracket(alloc: Global, extent: Length, kind: u32) -> Result<Node, AllocError>
        requires { IsSome extent }
        ensures { IfOk result (λ t. t ≡ Bracket extent kind) }
    {
        let parts = Parts::Bracket(kind);
        share(
            alloc,
            Inner {
                extent,
                height: 0,
                depth: 0,
                cut: false,
                bare: true,
                missing: Kinds::empty(),
                parts,
            },
        )
    }

    /// A closer of nothing open, with all kinds that it closes.
    pub fn unexpected(alloc: Global, extent: Length, closes: Kinds) -> Result<Node, AllocError>
        requires { IsSome extent }
        ensures { IfOk result (λ t. t ≡ Lone extent closes) }
    {
        share(
            alloc,
            Inner {
                extent,
                height: 0,
                depth: 0,
                cut: false,
                bare: false,
                missing: closes,
                parts: Parts::Unexpected,
            },
        )
    }

    /// A pair. Its opener and its closer are brackets of one kind.
    pub fn pair(
        alloc: Global,
        opener: &Node,
        inside: Option<&Node>,
        closer: Option<&Node>,
    ) -> Result<Node, AllocError>
        requires brackets { ArePair opener.now (nows inside) (nows closer) }
        requires front { Fits (plus (length_of opener.now) (length_of (or_nothing (nows inside)))) }
        requires whole { Fits (length_of (pair_of opener.now (nows inside) (nows closer))) }
        requires depth { depth (or_nothing (nows inside)) < 300 }
        ensures { IfOk result (λ t. t ≡ pair_of opener.now (nows inside.entry) (nows closer.entry)) }
    {
        let extent = with_closer(joined(opener.length(), length_or_none(inside)), closer);
        let depth = depth_or_none(inside) + 1;
        let cut = cut_or_none(inside);
        let missing = missing_or_none(inside);
        let opener = opener.copy()?;
        let inside = copy_or_none(inside)?;
        let closer = copy_or_none(closer)?;
        share(
            alloc,
            Inner {
                extent,
                height: 0,
                depth,
                cut,
                bare: false,
                missing,
                parts: Parts::Pair(opener, inside, closer),
            },
        )
    }

    #[tactic(auto, using(crate::proofs::Sound::two_sound))]
    fn two(alloc: Global, a: &Node, b: &Node) -> Result<Node, AllocError>
        requires b_height { height a.now ≡ height b.now }
        requires whole { Fits (length_of (Two a.now b.now)) }
        ensures { IfOk result (λ t. t ≡ Two a.now b.now) }
    {
        let extent = joined(a.length(), b.length());
        let height = one_higher(a);
        let depth = a.depth().max(b.depth());
        let cut = a.is_cut() | b.is_cut();
        let bare = a.is_bare() & b.is_bare();
        let missing = a.missing().with(b.missing());
        let a = a.copy()?;
        let b = b.copy()?;
        share(
            alloc,
            Inner {
                extent,
                height,
                depth,
                cut,
                bare,
                missing,
                parts: Parts::Two([a, b]),
            },
        )
    }

    #[tactic(auto, using(crate::proofs::Sound::three_sound))]
    fn three(alloc: Global, a: &Node, b: &Node, c: &Node) -> Result<Node, AllocError>
        requires b_height { height a.now ≡ height b.now }
        requires c_height { height a.now ≡ height c.now }
        requires front { Fits (plus (length_of a.now) (length_of b.now)) }
        requires whole { Fits (length_of (Three a.now b.now c.now)) }
        ensures { IfOk result (λ t. t ≡ Three a.now b.now c.now) }
    {
        let extent = joined(joined(a.length(), b.length()), c.length());
        let height = one_higher(a);
        let depth = a.depth().max(b.depth().max(c.depth()));
        let cut = a.is_cut() | (b.is_cut() | c.is_cut());
        let bare = a.is_bare() & (b.is_bare() & c.is_bare());
        let missing = a.missing().with(b.missing().with(c.missing()));
        let a = a.copy()?;
        let b = b.copy()?;
        let c = c.copy()?;
        share(
            alloc,
            Inner {
                extent,
                height,
                depth,
                cut,
                bare,
                missing,
                parts: Parts::Three([a, b, c]),
            },
        )
    }

    /// A list of two or three nodes of one height.
    pub fn list(
        alloc: Global,
        first: &Node,
        second: &Node,
        third: Option<&Node>,
    ) -> Result<Node, AllocError>
        requires second_height { height first.now ≡ height second.now }
        requires third_height { IsAsHigh first.now (nows third) }
        requires front { Fits (plus (length_of first.now) (length_of second.now)) }
        requires whole { Fits (length_of (list_tree first.now second.now (nows third))) }
        ensures { IfOk result (λ t. t ≡ list_tree first.now second.now (nows third.entry)) }
    {
        match third {
            None => Node::two(alloc, first, second),
            Some(third) => Node::three(alloc, first, second, third),
        }
    }
}

fn fits(depth: u32, level: u32, limit: u32) -> bool
    ensures { IsTrue result ↔ (depth + level ≤ limit) }
{
    depth <= limit && level <= limit - depth
}

/// The length of a piece and the piece behind it, where only the whole is known to fit.
fn joined(a: Length, b: Length) -> Length
    requires { Fits (plus a b) }
    ensures { result ≡ plus a b }
{
    if b.lines == 0 {
        add(a, b)
    } else {
        Length {
            lines: a.lines + b.lines,
            cols: b.cols,
        }
    }
}

/// One more than a node's height.
fn one_higher(a: &Node) -> u32
    ensures { result ≡ height a.now + 1 }
{
    a.height() + 1
}

/// A node of these fields.
fn share(alloc: Global, inner: Inner) -> Result<Node, AllocError>
    requires { Keeps inner }
    ensures { IfOk result (λ t. t ≡ tree_of inner) }
{
    Ok(Node {
        shared: Rc::new(alloc, inner)?,
    })
}

fn with_closer(extent: Length, closer: Option<&Node>) -> Length
    requires { Fits (and_closer extent (closer_length (nows closer))) }
    ensures { result ≡ and_closer extent (closer_length (nows closer.entry)) }
{
    match closer {
        Some(closer) => joined(extent, closer.length()),
        None => extent,
    }
}

fn copy_or_none(node: Option<&Node>) -> Result<Option<Node>, AllocError>
    ensures same { IfOk result (λ t. t ≡ nows node.entry) }
    ensures sound { SoundInside (nows node.entry) }
{
    match node {
        Some(node) => Ok(Some(node.copy()?)),
        None => Ok(None),
    }
}

fn length_or_none(node: Option<&Node>) -> Length
    ensures { result ≡ length_of (or_nothing (nows node.entry)) }
{
    match node {
        Some(node) => node.length(),
        None => Length { lines: 0, cols: 0 },
    }
}

fn depth_or_none(node: Option<&Node>) -> u32
    ensures { result ≡ depth (or_nothing (nows node.entry)) }
{
    match node {
        Some(node) => node.depth(),
        None => 0,
    }
}

fn cut_or_none(node: Option<&Node>) -> bool
    ensures { result ≡ is_cut (or_nothing (nows node.entry)) }
{
    match node {
        Some(node) => node.is_cut(),
        None => false,
    }
}

fn missing_or_none(node: Option<&Node>) -> Kinds
    ensures { (k : ℕ) → has_kind result k ≡ misses (or_nothing (nows node.entry)) k }
{
    match node {
        Some(node) => node.missing(),
        None => Kinds::empty(),
    }
}
