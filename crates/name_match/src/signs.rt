//! The units of an expression that stand for others, and those that no expression has.

ghost use Rattle.std.specs.Prelude.{◌≡◌};
ghost use Rattle.name_match.specs.Plan.{is_literal};
ghost use Rattle.fsa_types.specs.Match.{is_bad_expression_unit};

/// `*`.
pub(crate) const STAR: u16 = 42;
/// `?`.
pub(crate) const QUESTION_MARK: u16 = 63;
/// `<`.
pub(crate) const DOS_STAR: u16 = 60;
/// `>`.
pub(crate) const DOS_QM: u16 = 62;
/// `"`.
pub(crate) const DOS_DOT: u16 = 34;
/// `.`.
pub(crate) const DOT: u16 = 46;
/// A space.
const SPACE: u16 = 32;
/// `\`.
const BACKSLASH: u16 = 92;
/// `/`.
const SLASH: u16 = 47;
/// `:`.
const COLON: u16 = 58;
/// `|`.
const BAR: u16 = 124;

// Whether a unit stands for itself.
pub(crate) fn is_literal(unit: u16) -> bool
    ensures { result ≡ is_literal unit }
{
    !matches!(unit, STAR | QUESTION_MARK | DOS_STAR | DOS_QM | DOS_DOT)
}

// Whether no expression has this unit: it is below a space, or one of `\ / : |`.
pub(crate) fn is_bad(unit: u16) -> bool
    ensures { result ≡ is_bad_expression_unit unit }
{
    unit < SPACE || matches!(unit, BACKSLASH | SLASH | COLON | BAR)
}
