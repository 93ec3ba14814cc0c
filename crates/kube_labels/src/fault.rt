use thiserror::Error;

/// Why a selector is refused. The index is that of the first expression at fault, counted from 0.
#[derive(Clone, Copy, Debug, PartialEq, Eq, Error)]
pub enum SelectorFault {
    /// The operator is not In, NotIn, Exists or DoesNotExist.
    #[error("the operator of expression {index} is unknown")]
    UnknownOperator { index: usize },
    /// The operator is In or NotIn, and no value is listed.
    #[error("expression {index} lists no value")]
    EmptyValues { index: usize },
    /// The operator is Exists or DoesNotExist, and a value is listed.
    #[error("expression {index} lists values, which its operator takes none of")]
    UnwantedValues { index: usize },
}
