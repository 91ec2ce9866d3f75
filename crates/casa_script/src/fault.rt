use casa_wire::WireFault;
use thiserror::Error;

/// Why a line says nothing, in the order of the checks.
#[derive(Clone, Copy, PartialEq, Eq, Debug, Error)]
pub enum LineFault {
    /// The line is no call.
    #[error("the line is no call: {0}")]
    NoCall(WireFault),
    /// The member `n` is absent or no position.
    #[error("the member `n` is absent or no position")]
    NoPosition,
    /// The member `desk` is absent or no number of a desk.
    #[error("the member `desk` is absent or no number of a desk")]
    NoDesk,
    /// The member `rules` is absent or no version of the rules.
    #[error("the member `rules` is absent or no version of the rules")]
    NoRules,
    /// The member `sum` is absent or no sum.
    #[error("the member `sum` is absent or no sum")]
    NoSum,
    /// There is no memory for what the line says.
    #[error("there is no memory for what the line says")]
    NoMemory,
}
