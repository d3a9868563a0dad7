/// How a node sends and takes in: the window of each of its calls, in packets, and whether it is prompt. A prompt node
/// asks for an acknowledgement behind each half of its window (`rx.c`, `rxi_SendList`, asks far more often), gives
/// again at once what it takes for lost, and acknowledges what fills a hole; and it tells what was asked for behind the
/// read of it, and a hole again while nothing comes.
#[derive(Clone, Copy, Debug, PartialEq, Eq)]
pub struct Pace {
    pub window: u32,
    pub prompt: bool,
}
