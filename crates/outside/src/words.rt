/// The words of a command line behind the program's name, in their order.
#[derive(Drop)]
pub struct Words {
    /// The words.
    pub list: Vec<String>,
}
