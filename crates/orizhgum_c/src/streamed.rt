// For C: the stream.
ghost use Rattle.std.specs.Prelude.{◌≡◌};
ghost use Rattle.frame.specs.Framing.{header_width, body_limit};
ghost use Rattle.streams.specs.Stream.{new_stream, pushed, buffer_left, ended};
ghost use Rattle.orizhgum.specs.Streamed.{stream_answer};

use orizhgum::streamed::StreamAnswer;
use streams::Stream;

#[unsafe(no_mangle)]
pub extern "C" fn orizhgum_stream_new() -> Stream
    ensures { result ≡ new_stream }
{
    orizhgum::streamed::orizhgum_stream_new()
}

#[unsafe(no_mangle)]
pub extern "C" fn orizhgum_stream_push(
    stream: Stream,
    buffer: &mut [u8],
    cut: &[u8],
) -> StreamAnswer
    ensures value { result ≡ stream_answer (pushed header_width body_limit stream buffer.old cut.now) }
    ensures buffer_after { buffer.new ≡ buffer_left header_width body_limit stream buffer.old cut.now }
{
    orizhgum::streamed::orizhgum_stream_push(stream, buffer, cut)
}

#[unsafe(no_mangle)]
pub extern "C" fn orizhgum_stream_end(stream: Stream, buffer: &[u8]) -> StreamAnswer
    ensures { result ≡ stream_answer (ended header_width body_limit stream buffer.now) }
{
    orizhgum::streamed::orizhgum_stream_end(stream, buffer)
}
