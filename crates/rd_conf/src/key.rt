ghost use Rattle.std.specs.Prelude.{◌≡◌};
ghost use Rattle.rd_conf.specs.Keys.{key_word, key_name};

/// A key of a settings file, in the order in which the keys are looked at.
#[derive(Clone, Copy, Debug, PartialEq, Eq)]
pub enum Key {
    Version,
    Copies,
    Incoming,
    Outgoing,
    UnitMax,
    ExchangesMax,
    IdleMs,
    RequestMs,
    GatherMs,
    ReplyMs,
    HttpPass,
    FirmNames,
    FreeNames,
    MaskedMax,
    MaskedBytes,
    Ports,
    PortsListen,
    PortsInstances,
    PortsCallers,
    PortsBackend,
    PortsOperator,
    PortsRecords,
}

impl Key {
    /// The key as it is printed: a key of the table of ports follows `ports.`.
    pub fn name(self) -> &'static str
        ensures { result.now ≡ key_name self }
    {
        match self {
            Key::PortsListen => "ports.listen",
            Key::PortsInstances => "ports.instances",
            Key::PortsCallers => "ports.callers",
            Key::PortsBackend => "ports.backend",
            Key::PortsOperator => "ports.operator",
            Key::PortsRecords => "ports.records",
            _ => self.word(),
        }
    }

    /// The key as it stands in its table.
    pub(crate) fn word(self) -> &'static str
        ensures { result.now ≡ key_word self }
    {
        match self {
            Key::Version => "version",
            Key::Copies => "copies",
            Key::Incoming => "incoming",
            Key::Outgoing => "outgoing",
            Key::UnitMax => "unit_max",
            Key::ExchangesMax => "exchanges_max",
            Key::IdleMs => "idle_ms",
            Key::RequestMs => "request_ms",
            Key::GatherMs => "gather_ms",
            Key::ReplyMs => "reply_ms",
            Key::HttpPass => "http_pass",
            Key::FirmNames => "firm_names",
            Key::FreeNames => "free_names",
            Key::MaskedMax => "masked_max",
            Key::MaskedBytes => "masked_bytes",
            Key::Ports => "ports",
            Key::PortsListen => "listen",
            Key::PortsInstances => "instances",
            Key::PortsCallers => "callers",
            Key::PortsBackend => "backend",
            Key::PortsOperator => "operator",
            Key::PortsRecords => "records",
        }
    }
}
