// Where the product of a variable and a term of S leads: to a place in S or on the border, counted from 1.
#[derive(Clone, Copy, Debug, PartialEq)]
pub enum Lead {
    Inside(u16),
    OnBorder(u16),
}
