//! Why a message was not put into its order.

/// Why an orderer did not take a message.
#[derive(Debug, Drop, PartialEq, Eq)]
pub enum OrderFault<E> {
    /// Memory was refused. Nothing was put, and the orderer is unchanged: the call may be made again.
    Memory,
    /// The sink refused a message, after those that were due before it. From now on the orderer has failed.
    Sink(E),
    /// The sink refused a message in an earlier call. Nothing was put.
    Failed,
}
