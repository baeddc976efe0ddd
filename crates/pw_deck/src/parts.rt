ghost use Rattle.std.specs.Prelude.{◌≡◌, ◌+◌, ◌≤◌, length};
ghost use Rattle.pw_base.specs.First.{Gives};
ghost use Rattle.pw_base.specs.Limits.{longest_input};
ghost use Rattle.pw_deck.specs.Parts.{no_parts, has_requester, has_server, requester_section, server_section, section_of, section_read};

use pw_base::bytes::Bytes;
use pw_base::fault::Refusal;
use pw_base::fault_code::FaultCode;
use pw_base::list::List;
use pw_code::system::{MAX_PROGRAMS, MAX_SERVERS};
use pw_deck_tables::objects::{Objects, one_more};
use pw_deck_tables::piece::{section_line, section_text};
use pw_scobol::read::requester;
use pw_scobol::requester::Requester;
use pw_sections::heading::{Heading, heading_of};
use pw_server::read::server;
use pw_server::server::Server;
use std::alloc::Global;

/// What the sections of a deck say so far.
#[derive(Drop)]
pub struct Parts<'a> {
    pub requesters: List<Requester>,
    pub servers: List<Server>,
    pub objects: Objects<'a>,
    /// The deck's end was read.
    pub has_end: bool,
}

impl<'a> Parts<'a> {
    /// A deck before its first section. It takes no memory.
    pub fn new(alloc: Global) -> Parts<'a>
        ensures { result ≡ no_parts }
    {
        Parts {
            requesters: List::new(alloc),
            servers: List::new(alloc),
            objects: Objects::new(alloc),
            has_end: false,
        }
    }

    /// Whether a requester of this name was read.
    fn has_requester(&self, name: &[u8]) -> bool
        ensures { result ≡ has_requester self.now name.now }
    {
        let requesters = self.requesters.as_slice();
        requesters
            .iter()
            .any(|requester| requester.name.as_slice() == name)
    }

    /// Whether a server of this name was read.
    fn has_server(&self, name: &[u8]) -> bool
        ensures { result ≡ has_server self.now name.now }
    {
        let servers = self.servers.as_slice();
        servers.iter().any(|server| server.name.as_slice() == name)
    }

    /// Reads a requester.
    fn read_requester(
        &mut self,
        alloc: Global,
        line: u32,
        text: &[u8],
        name: Bytes,
    ) -> Result<(), Refusal>
        requires { (1 ≤ line) × (line + 1 + length text.now ≤ longest_input + 1) }
        ensures { Gives (λ done. self.new) result (requester_section self.old line text.now name) }
    {
        let stands = self.has_requester(name.as_slice());
        one_more(line, stands, self.requesters.len() >= MAX_PROGRAMS as usize)?;
        let program = requester(alloc, name.as_slice(), text, line + 1)?;
        self.requesters.push(program)?;
        Ok(())
    }

    /// Reads a server.
    fn read_server(
        &mut self,
        alloc: Global,
        line: u32,
        text: &[u8],
        name: Bytes,
    ) -> Result<(), Refusal>
        requires { (1 ≤ line) × (line + 1 + length text.now ≤ longest_input + 1) }
        ensures { Gives (λ done. self.new) result (server_section self.old line text.now name) }
    {
        let stands = self.has_server(name.as_slice());
        one_more(line, stands, self.servers.len() >= MAX_SERVERS as usize)?;
        let program = server(alloc, name.as_slice(), text, line + 1)?;
        self.servers.push(program)?;
        Ok(())
    }

    /// Reads a section by what its section line says.
    fn read_section_of(
        &mut self,
        alloc: Global,
        line: u32,
        text: &'a [u8],
        heading: Heading,
    ) -> Result<(), Refusal>
        requires { (1 ≤ line) × (line + 1 + length text.now ≤ longest_input + 1) }
        ensures { Gives (λ done. self.new) result (section_of self.old line text.now heading) }
    {
        match heading {
            Heading::Pathcom => {
                self.objects.read_pathcom(alloc, line, text)?;
                Ok(())
            }
            Heading::Requester(name) => self.read_requester(alloc, line, text, name),
            Heading::Server(name) => self.read_server(alloc, line, text, name),
            Heading::File(name, key) => {
                self.objects.read_file(alloc, line, text, name, key)?;
                Ok(())
            }
            Heading::Entries(name) => {
                self.objects.read_entries(alloc, line, text, name)?;
                Ok(())
            }
            Heading::Fail => {
                self.objects.read_fail(alloc, line, text)?;
                Ok(())
            }
            Heading::Log => {
                self.objects.read_log(alloc, line, text)?;
                Ok(())
            }
            Heading::End => {
                self.has_end = true;
                Ok(())
            }
        }
    }

    /// Reads a section with its section line, which has the number `line`.
    pub fn read_section(
        &mut self,
        alloc: Global,
        line: u32,
        section: &'a [u8],
    ) -> Result<(), Refusal>
        requires line { (1 ≤ line) × (line + length section.now ≤ longest_input + 1) }
        requires some { 1 ≤ length section.now }
        ensures { Gives (λ done. self.new) result (section_read self.old line section.now) }
    {
        let Some(heading) = heading_of(alloc, section_line(section))? else {
            return Err(Refusal::At {
                line,
                code: FaultCode::BadSection,
            });
        };
        self.read_section_of(alloc, line, section_text(section), heading)
    }
}
