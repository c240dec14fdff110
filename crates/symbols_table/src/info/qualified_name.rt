//! Fully qualified names of symbols.

ghost use Rattle.std.specs.Prelude.{◌≡◌, ◌<◌, ◌++◌, ◌∷◌, [], List, length, Some, codes};
ghost use Rattle.std.specs.Prelude.{string_bytes, encode_utf8_all, IfOk, OnOk, IfErr, IsSome};
ghost use Rattle.std.specs.Cow.{cow_str_bytes};
ghost use Rattle.std.specs.Option.{option_map};
ghost use Rattle.symbols_ast.specs.declared.ids.ModuleId.{ModuleId};
ghost use Rattle.symbols_nodes.specs.NodeTests.{is_class_exported_or_not};
ghost use Rattle.symbols_table.specs.Laws.{AreLawfulSymbols};
ghost use Rattle.symbols_table.specs.SymbolViews.{SymbolView, symbol_view, symbol_name};
ghost use Rattle.symbols_table.specs.SymbolViews.{first_decl_node_satisfies, symbol_view_of_number};
ghost use Rattle.symbols_table.specs.Modules.{symbol_table_of_ref, symbol_in_table};
ghost use Rattle.symbols_table.specs.QualifiedNames.{char_with_quote_escaped, text_with_quotes_escaped};
ghost use Rattle.symbols_table.specs.QualifiedNames.{dot_prototype_or_bracket_suffix, text_unless_empty};
ghost use Rattle.symbols_table.specs.QualifiedNames.{qualified_name, IsQualifiedNameFault};
ghost use Rattle.symbols_table.specs.inner.NamePaths.{reversed_pieces_text, suffix_text};
ghost use Rattle.symbols_table.specs.inner.NamePaths.{IsNameOfPathSuffixIfAny};

use crate::decl::Symbol;
use crate::info::fault::SymbolsFault;
use crate::info::module_info::ModuleInfoRef;
use std::alloc::{AllocError, Global};
use std::borrow::CowStr;
use symbols_ast::ids::SymbolId;

/// The length in bytes up to which an inner name is copied when an outer name is put before it. A
/// longer name stays in pieces, so that a path of any length takes time linear in its text.
const COPIED: usize = 128;

/// The length in bytes of the longest separator between two names, `.prototype.`.
const LONGEST_SIGN: usize = 11;

fn push_escaped(text: &mut String, c: char) -> Result<(), AllocError>
    ensures { OnOk result (string_bytes text.new
        ≡ string_bytes text.old ++ encode_utf8_all (char_with_quote_escaped c)) }
{
    if c == '"' {
        text.push('\\')?;
    }
    text.push(c)
}

/// Appends a text with `\` before each `"`.
fn push_all_escaped(made: &mut String, text: &str) -> Result<(), AllocError>
    ensures { OnOk result (string_bytes made.new
        ≡ string_bytes made.old ++ text_with_quotes_escaped text.now) }
{
    if !text.as_bytes().contains(&b'"') {
        made.push_str(text)?;
        return Ok(());
    }
    for c in text.chars() {
        push_escaped(made, c)?;
    }
    Ok(())
}

/// Returns whether the symbol's first declaration is a class.
fn is_class(symbol: &Symbol<'_>) -> bool
    ensures { result ≡ first_decl_node_satisfies is_class_exported_or_not (symbol_view symbol.now) }
{
    match symbol.node_of_first_decl() {
        Some(node) => node.is_class(),
        None => false,
    }
}

/// Returns the total number of bytes of the pieces. It is only a capacity to begin with.
fn room_for(pieces: &[CowStr<'_>]) -> usize {
    let mut room = 0usize;
    for piece in pieces {
        room = room.saturating_add(piece.as_str().len());
    }
    room
}

/// Joins pieces, stored from the last to the first, to one text.
fn text_of(alloc: Global, pieces: Vec<CowStr<'_>>) -> Result<String, AllocError>
    ensures { IfOk result (λ text. string_bytes text ≡ reversed_pieces_text pieces.entry.items) }
{
    let mut text = String::with_capacity(alloc, room_for(&pieces))?;
    let mut pieces = pieces;
    while let Some(piece) = pieces.pop() {
        text.push_str(piece.as_str())?;
    }
    Ok(text)
}

/// The non-empty name of the lower part of a path: the number of its first symbol, its first piece,
/// and the later pieces from the last to the second.
#[derive(Drop)]
pub(crate) struct NamedSuffix<'a> {
    pub(crate) number: SymbolId,
    pub(crate) first: CowStr<'a>,
    pub(crate) later: Vec<CowStr<'a>>,
}

/// Returns the pieces with another piece before the text they have so far.
fn with_piece<'a>(pieces: Vec<CowStr<'a>>, piece: CowStr<'a>) -> Result<Vec<CowStr<'a>>, AllocError>
    ensures { IfOk result (λ more. reversed_pieces_text more.items
        ≡ cow_str_bytes piece.entry ++ reversed_pieces_text pieces.entry.items) }
{
    let mut pieces = pieces;
    pieces.push(piece)?;
    Ok(pieces)
}

/// Removes all pieces, stored from the last to the first, and appends their text with `\` before
/// each `"`.
fn take_all_escaped(made: &mut String, pieces: &mut Vec<CowStr<'_>>) -> Result<(), AllocError>
    ensures { OnOk result (string_bytes made.new ≡ string_bytes made.old
        ++ text_with_quotes_escaped (reversed_pieces_text pieces.old.items)) }
{
    while let Some(piece) = pieces.pop() {
        push_all_escaped(made, piece.as_str())?;
    }
    Ok(())
}

/// Returns the text of the pieces in brackets and quotes, as one piece.
fn in_brackets<'a>(alloc: Global, pieces: Vec<CowStr<'a>>) -> Result<Vec<CowStr<'a>>, AllocError>
    ensures { IfOk result (λ more. reversed_pieces_text more.items ≡ codes "[\""
        ++ (text_with_quotes_escaped (reversed_pieces_text pieces.entry.items) ++ codes "\"]")) }
{
    let mut pieces = pieces;
    let mut made = String::with_capacity(alloc, room_for(&pieces).saturating_add(4))?;
    made.push_str("[\"")?;
    take_all_escaped(&mut made, &mut pieces)?;
    made.push_str("\"]")?;
    pieces.clear();
    with_piece(pieces, CowStr::Owned(made))
}

/// Returns the pieces that follow a symbol's name in the name of a symbol inside it: a separator
/// and the inner name's pieces.
fn suffix_pieces<'a>(
    alloc: Global,
    symbol: &Symbol<'a>,
    number: SymbolId,
    inner: Vec<CowStr<'a>>,
) -> Result<Vec<CowStr<'a>>, AllocError>
    ensures { IfOk result (λ pieces. reversed_pieces_text pieces.items
        ≡ dot_prototype_or_bracket_suffix
        (symbol_view symbol.now) number (reversed_pieces_text inner.entry.items)) }
{
    if !symbol.tables.has_member(number) {
        return with_piece(inner, CowStr::Borrowed("."));
    }
    if is_class(symbol) {
        return with_piece(inner, CowStr::Borrowed(".prototype."));
    }
    in_brackets(alloc, inner)
}

/// Appends what follows a symbol's name in the name of a symbol inside it: a separator and the
/// inner name.
fn push_suffix(
    text: &mut String,
    symbol: &Symbol<'_>,
    number: SymbolId,
    inner: &str,
) -> Result<(), AllocError>
    ensures { OnOk result (string_bytes text.new ≡ string_bytes text.old
        ++ dot_prototype_or_bracket_suffix (symbol_view symbol.now) number inner.now) }
{
    if !symbol.tables.has_member(number) {
        text.push_str(".")?;
        return text.push_str(inner);
    }
    if is_class(symbol) {
        text.push_str(".prototype.")?;
        return text.push_str(inner);
    }
    text.push_str("[\"")?;
    push_all_escaped(text, inner)?;
    text.push_str("\"]")
}

/// Returns a symbol's name followed by a separator and the name of a symbol inside it, as one text.
fn with_inner(
    alloc: Global,
    symbol: &Symbol<'_>,
    name: &str,
    number: SymbolId,
    inner: &str,
) -> Result<String, AllocError>
    ensures { IfOk result (λ text. string_bytes text
        ≡ name.now ++ dot_prototype_or_bracket_suffix (symbol_view symbol.now) number inner.now) }
{
    let room = name.len().saturating_add(inner.len());
    let mut text = String::with_capacity(alloc, room.saturating_add(LONGEST_SIGN))?;
    text.push_str(name)?;
    push_suffix(&mut text, symbol, number, inner)?;
    Ok(text)
}

/// Returns the name of the path that begins one symbol higher. A short inner name is copied into
/// one text with the new name.
fn name_with_outer<'a>(
    alloc: Global,
    symbol: &Symbol<'a>,
    name: CowStr<'a>,
    inner: NamedSuffix<'a>,
) -> Result<NamedSuffix<'a>, AllocError>
    ensures number { IfOk result (λ named. named.number ≡ (symbol_view symbol.now).number) }
    ensures text { IfOk result (λ named. suffix_text named
        ≡ cow_str_bytes name.entry ++ dot_prototype_or_bracket_suffix
        (symbol_view symbol.now) inner.entry.number (suffix_text inner.entry)) }
{
    let number = symbol.symbol_id;
    if inner.later.is_empty() && inner.first.as_str().len() <= COPIED {
        let text = with_inner(
            alloc,
            symbol,
            name.as_str(),
            inner.number,
            inner.first.as_str(),
        )?;
        return Ok(NamedSuffix {
            number,
            first: CowStr::Owned(text),
            later: inner.later,
        });
    }
    let pieces = with_piece(inner.later, inner.first)?;
    Ok(NamedSuffix {
        number,
        first: name,
        later: suffix_pieces(alloc, symbol, inner.number, pieces)?,
    })
}

/// Returns the name of the path that begins one symbol higher; `None` if it is empty.
fn name_from<'a>(
    alloc: Global,
    symbol: &Symbol<'a>,
    name: CowStr<'a>,
    inner: Option<NamedSuffix<'a>>,
) -> Result<Option<NamedSuffix<'a>>, AllocError>
    ensures { IfOk result (λ named. (path : List SymbolView)
        → IsNameOfPathSuffixIfAny inner.entry path
        → symbol_name (symbol_view symbol.now) ≡ Some (cow_str_bytes name.entry)
        → IsNameOfPathSuffixIfAny named (symbol_view symbol.now ∷ path)) }
{
    let number = symbol.symbol_id;
    match inner {
        None => {
            if name.as_str().is_empty() {
                return Ok(None);
            }
            Ok(Some(NamedSuffix {
                number,
                first: name,
                later: Vec::new(alloc),
            }))
        }
        Some(inner) => Ok(Some(name_with_outer(alloc, symbol, name, inner)?)),
    }
}

/// Returns the name of a path as one text.
fn whole_text(alloc: Global, named: NamedSuffix<'_>) -> Result<String, AllocError>
    ensures { IfOk result (λ text. string_bytes text ≡ suffix_text named.entry) }
{
    let NamedSuffix { first, later, .. } = named;
    if !later.is_empty() {
        return text_of(alloc, with_piece(later, first)?);
    }
    match first {
        CowStr::Owned(text) => Ok(text),
        CowStr::Borrowed(text) => String::from_str(alloc, text),
    }
}

/// Returns the name along the path from below the module to a symbol, of any length. It is `None`
/// if the name is empty or a symbol on the path has no name.
fn name_along(
    alloc: Global,
    symbols: &[Symbol<'_>],
    symbol_id: SymbolId,
) -> Result<Option<String>, AllocError>
    requires lawful { (module_id : ModuleId) × AreLawfulSymbols module_id symbols.now }
    requires stored { symbol_id.0 < length symbols.now }
    ensures { IfOk result (λ name. option_map string_bytes name
        ≡ qualified_name (symbol_view_of_number symbols.now) symbol_id) }
{
    let mut inner: Option<NamedSuffix<'_>> = None;
    let mut number = symbol_id;
    while let Some(parent) = symbols[number.0 as usize].parent_id {
        let symbol = &symbols[number.0 as usize];
        let Some(name) = symbol.maybe_name()? else {
            return Ok(None);
        };
        inner = name_from(alloc, symbol, name, inner)?;
        number = parent;
    }
    match inner {
        Some(named) => Ok(Some(whole_text(alloc, named)?)),
        None => Ok(None),
    }
}

/// Returns the text of a name; `None` if it is empty.
fn lone_name(alloc: Global, name: &str) -> Result<Option<String>, AllocError>
    ensures { IfOk result (λ text. option_map string_bytes text ≡ text_unless_empty name.now) }
{
    if name.is_empty() {
        return Ok(None);
    }
    Ok(Some(String::from_str(alloc, name)?))
}

/// Returns the name along the path from below the module to a symbol, as `name_along`. For a symbol
/// right below the module it is the symbol's own name, without a search along parents.
fn qualified_name(
    alloc: Global,
    symbols: &[Symbol<'_>],
    symbol_id: SymbolId,
) -> Result<Option<String>, AllocError>
    requires lawful { (module_id : ModuleId) × AreLawfulSymbols module_id symbols.now }
    requires stored { symbol_id.0 < length symbols.now }
    ensures { IfOk result (λ name. option_map string_bytes name
        ≡ qualified_name (symbol_view_of_number symbols.now) symbol_id) }
{
    let symbol = &symbols[symbol_id.0 as usize];
    let Some(parent) = symbol.parent_id else {
        return Ok(None);
    };
    if parent.0 != 0 {
        return name_along(alloc, symbols, symbol_id);
    }
    match symbol.maybe_name()? {
        Some(name) => Ok(lone_name(alloc, name.as_str())?),
        None => Ok(None),
    }
}

impl<'r, 'a> ModuleInfoRef<'r, 'a> {
    /// Returns the fully qualified name of a symbol (as deno_graph): the names on the path from the
    /// module down to it. An inner name follows after `.`. The name of a member follows after
    /// `.prototype.` in a class. In anything else it is in brackets and quotes, with each `"`
    /// written `\"`. It is `None` for the module itself, if a symbol on the path has no name, and
    /// if the whole name is empty.
    ///
    /// # Errors
    ///
    /// `UnknownSymbol` if the module has no symbol of this number. `OutOfMemory` if an allocation
    /// failed.
    pub fn fully_qualified_symbol_name(
        self,
        alloc: Global,
        symbol_id: SymbolId,
    ) -> Result<Option<String>, SymbolsFault>
        ensures name { IfOk result (λ name. IsSome (symbol_in_table
            (symbol_table_of_ref self.entry) symbol_id) × (option_map string_bytes name
            ≡ qualified_name (symbol_in_table (symbol_table_of_ref self.entry)) symbol_id)) }
        ensures fault { IfErr result
            (IsQualifiedNameFault (symbol_in_table (symbol_table_of_ref self.entry) symbol_id)) }
    {
        if self.symbol(symbol_id).is_none() {
            return Err(SymbolsFault::UnknownSymbol);
        }
        Ok(qualified_name(alloc, self.all_symbols(), symbol_id)?)
    }
}
