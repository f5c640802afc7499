// The elimination in two lent stores: the coefficients of the held equations, row after row, and their symbols. The stores may hold anything: each
// function here asks of lengths and of places only, and says what its step means if they stood as an elimination leaves them.
pub mod onto;
pub mod reducing;
pub mod rows;
pub mod settling;
pub mod solving;
pub mod taking;
pub mod within;
