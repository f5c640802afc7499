// The elimination over two lent stores: the exact three answers for whatever system of equations they hold. It knows nothing of RFC 6330.
#![tactic(auto)]

pub mod beneath;
pub mod verdict;
