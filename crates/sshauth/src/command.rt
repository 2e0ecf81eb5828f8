//! A client's channel, on which it has one command executed (RFC 4254 section 6.5).

use crate::channel::{CHANNEL_EOF, KEXINIT, REQUEST_REFUSED, WINDOW, reply_besides};
use crate::channel_answers::{ClientStep, Stage, after_bytes, client_step};
use crate::channel_messages::{adjust, exec, farewell, of_channel, open};
use crate::fault::Fault;
use crate::remote_output::{RemoteOutput, Stream};
use crate::report::{tell, tell_number, tell_shown};
use crate::session_stream::SessionStream;
use sshcore::Session;
use sshwire::Reader;

/// The exit status where the command's isn't known.
const UNKNOWN: u8 = 255;

/// A channel, and what is known of its command.
#[derive(Drop)]
struct Channel<'a> {
    command: &'a str,
    stage: Stage,
    /// The number that the server's side of the channel has.
    theirs: u32,
    /// How many bytes the server may send.
    left: u32,
    /// What is answered as the exit status, once one was told.
    status: Option<u8>,
    /// The exit status that was told, which is printed after all output.
    exit: Option<u32>,
    output: RemoteOutput,
}

/// Asks for a command, tells what it prints, and answers its exit status; without a command the session ends at once.
pub(crate) fn ask(
    rt: &HostRuntime,
    session: Box<Session>,
    after: Vec<u8>,
    command: Option<&str>,
) -> Result<u8, Fault> {
    let Some(command) = command else {
        return Ok(0);
    };
    let mut stream = SessionStream::new(rt, session, after)?;
    let status = ask_over(rt, &mut stream, command);
    drop(stream);
    status
}

/// The same over a stream that was opened.
fn ask_over(rt: &HostRuntime, stream: &mut SessionStream, command: &str) -> Result<u8, Fault> {
    let mut channel = Channel {
        command,
        stage: Stage::Opening,
        theirs: 0,
        left: WINDOW,
        status: None,
        exit: None,
        output: RemoteOutput::new(),
    };
    let begun = begin(rt, stream);
    let carried = match begun {
        Ok(()) => channel.carry(rt, stream),
        Err(fault) => Err(fault),
    };
    channel.output.end_line(rt);
    drop(channel);
    carried
}

/// Asks for a channel.
fn begin(rt: &HostRuntime, stream: &mut SessionStream) -> Result<(), Fault> {
    stream.send(rt, &open(rt.alloc())?)
}

impl Channel<'_> {
    /// Receives what a server sends until its channel is closed, or its input ends, and answers the exit status.
    fn carry(&mut self, rt: &HostRuntime, stream: &mut SessionStream) -> Result<u8, Fault> {
        for _ in 0..u64::MAX {
            let Some(payload) = stream.receive(rt)? else {
                self.output.end_line(rt);
                tell(rt, "the input ended");
                break;
            };
            if self.receive(rt, stream, &payload)? {
                break;
            }
        }
        self.tell_exit(rt);
        Ok(self.status.unwrap_or(UNKNOWN))
    }

    /// Tells the exit status, where one was told: a server may send output after it.
    fn tell_exit(&mut self, rt: &HostRuntime) {
        if let Some(status) = self.exit {
            self.output.end_line(rt);
            tell_number(rt, "exit status", status);
        }
    }

    /// Does what a payload asks for, and answers whether that is the end.
    fn receive(
        &mut self,
        rt: &HostRuntime,
        stream: &mut SessionStream,
        payload: &[u8],
    ) -> Result<bool, Fault> {
        let Some((number, fields)) = payload.split_first() else {
            return Ok(false);
        };
        let reader = &mut Reader::new(fields);
        match client_step(self.stage, *number) {
            ClientStep::AskCommand => self.ask_command(rt, stream, reader),
            ClientStep::EndInput => self.end_input(rt, stream),
            ClientStep::NoChannel => no_channel(rt, stream, reader),
            ClientStep::NoCommand => self.no_command(rt, stream),
            ClientStep::TellOutput => self.tell_output(rt, stream, Stream::Output, reader),
            ClientStep::TellError => self.tell_output(rt, stream, Stream::Error, reader),
            ClientStep::LookForEnd => self.look_for_end(rt, stream, reader),
            ClientStep::Leave => self.leave(rt, stream),
            ClientStep::Disconnected => {
                self.output.end_line(rt);
                disconnected(rt, reader)
            }
            ClientStep::Besides => self.besides(rt, stream, *number, reader),
        }
    }

    /// Asks for the command on the channel that is confirmed.
    fn ask_command(
        &mut self,
        rt: &HostRuntime,
        stream: &mut SessionStream,
        reader: &mut Reader<'_>,
    ) -> Result<bool, Fault> {
        reader.u32()?;
        self.theirs = reader.u32()?;
        self.stage = Stage::Asking;
        stream.send(rt, &exec(rt.alloc(), self.theirs, self.command)?)?;
        Ok(false)
    }

    /// Ends the command's input, which is empty.
    fn end_input(&mut self, rt: &HostRuntime, stream: &mut SessionStream) -> Result<bool, Fault> {
        self.stage = Stage::Running;
        stream.send(rt, &of_channel(rt.alloc(), CHANNEL_EOF, self.theirs)?)?;
        Ok(false)
    }

    /// Tells what the command writes, and lets more come where half of the window is used.
    fn tell_output(
        &mut self,
        rt: &HostRuntime,
        stream: &mut SessionStream,
        kind: Stream,
        reader: &mut Reader<'_>,
    ) -> Result<bool, Fault> {
        reader.u32()?;
        if matches!(kind, Stream::Error) {
            reader.u32()?;
        }
        let bytes = reader.string()?;
        let Some(credit) = after_bytes(self.left, bytes.len()) else {
            self.output.end_line(rt);
            tell(rt, "the server sends more than it may");
            return Err(Fault::Session);
        };
        self.left = credit.left;
        self.output.tell(rt, kind, bytes)?;
        if credit.granted > 0 {
            stream.send(rt, &adjust(rt.alloc(), self.theirs, credit.granted)?)?;
        }
        Ok(false)
    }

    /// Looks in a request for how the command has ended, and refuses what else is asked.
    fn look_for_end(
        &mut self,
        rt: &HostRuntime,
        stream: &mut SessionStream,
        reader: &mut Reader<'_>,
    ) -> Result<bool, Fault> {
        reader.u32()?;
        let name = reader.string()?;
        let wants_reply = reader.boolean()?;
        if name == b"exit-status".as_slice() {
            let status = reader.u32()?;
            self.exit = Some(status);
            self.status = Some(u8::try_from(status).unwrap_or(UNKNOWN));
        } else if name == b"exit-signal".as_slice() {
            let signal = reader.string()?;
            self.output.end_line(rt);
            tell_shown(rt, "killed by signal", signal)?;
            self.status = Some(UNKNOWN);
        } else if wants_reply {
            stream.send(rt, &of_channel(rt.alloc(), REQUEST_REFUSED, self.theirs)?)?;
        }
        Ok(false)
    }

    /// Tells that the command is refused, and takes leave.
    fn no_command(&mut self, rt: &HostRuntime, stream: &mut SessionStream) -> Result<bool, Fault> {
        self.output.end_line(rt);
        tell(rt, "the server refuses the command");
        stream.send(rt, &farewell(rt.alloc())?)?;
        Ok(true)
    }

    /// Answers what isn't on the channel.
    fn besides(
        &mut self,
        rt: &HostRuntime,
        stream: &mut SessionStream,
        number: u8,
        reader: &mut Reader<'_>,
    ) -> Result<bool, Fault> {
        if number == KEXINIT {
            self.output.end_line(rt);
        }
        if let Some(reply) = reply_besides(rt, number, reader)? {
            stream.send(rt, &reply)?;
        }
        Ok(false)
    }

    /// Takes leave, as the server has closed the channel.
    fn leave(&mut self, rt: &HostRuntime, stream: &mut SessionStream) -> Result<bool, Fault> {
        if self.status.is_none() {
            self.output.end_line(rt);
            tell(rt, "no exit status was told");
        }
        stream.send(rt, &farewell(rt.alloc())?)?;
        Ok(true)
    }
}

/// Tells why there is no channel, and takes leave.
fn no_channel(
    rt: &HostRuntime,
    stream: &mut SessionStream,
    reader: &mut Reader<'_>,
) -> Result<bool, Fault> {
    reader.u32()?;
    tell_number(
        rt,
        "the server refuses the channel, for reason",
        reader.u32()?,
    );
    tell_shown(rt, "refused", reader.string()?)?;
    stream.send(rt, &farewell(rt.alloc())?)?;
    Ok(true)
}

/// Tells why the server disconnects.
fn disconnected(rt: &HostRuntime, reader: &mut Reader<'_>) -> Result<bool, Fault> {
    tell_number(rt, "the server has disconnected, for reason", reader.u32()?);
    tell_shown(rt, "disconnect", reader.string()?)?;
    Ok(true)
}
