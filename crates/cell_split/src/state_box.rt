/// The least and the greatest state of a box, over `2^g`.
#[derive(Drop)]
pub struct StateBox {
    pub lo: Vec<i128>,
    pub hi: Vec<i128>,
}
