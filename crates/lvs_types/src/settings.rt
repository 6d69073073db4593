//! Sysctls, timeouts and sync daemons.
ghost use Rattle.std.specs.Prelude.{◌≡◌};
ghost use Rattle.lvs_types.specs.Settings.{default_settings, with_setting};

/// The sysctls of net.ipv4.vs and the three timeouts of `--set`, in seconds.
#[derive(Clone, Copy, Debug, PartialEq, Eq)]
pub struct Settings {
    /// expire_nodest_conn.
    pub expire_nodest: u32,
    /// expire_quiescent_template.
    pub expire_quiescent: u32,
    /// sloppy_tcp.
    pub sloppy_tcp: u32,
    /// conn_reuse_mode, 0 or 1.
    pub reuse_mode: u32,
    /// The first number of sync_threshold.
    pub threshold: u32,
    /// The second number of sync_threshold: 0, or above the threshold.
    pub period: u32,
    /// The timeout of an established TCP connection.
    pub established: u32,
    /// The timeout of a TCP connection in FIN_WAIT.
    pub fin_wait: u32,
    /// The timeout of UDP.
    pub udp: u32,
    /// sync_version, 0 or 1.
    pub sync_version: u32,
}

/// A sysctl with its value (the Linux ipvs-sysctl document).
#[derive(Clone, Copy, Debug, PartialEq, Eq)]
pub enum Setting {
    /// expire_nodest_conn, 0 to 2,147,483,647.
    ExpireNodest(u32),
    /// expire_quiescent_template, 0 to 2,147,483,647.
    ExpireQuiescent(u32),
    /// sloppy_tcp, 0 to 2,147,483,647.
    SloppyTcp(u32),
    /// conn_reuse_mode, 0 or 1.
    ReuseMode(u32),
    /// The threshold and the period.
    SyncThreshold(u32, u32),
    /// sync_version, 0 or 1.
    SyncVersion(u32),
}

/// The sync ids of the daemons that run.
#[derive(Clone, Copy, Debug, PartialEq, Eq)]
pub struct Daemons {
    /// Of the master, which sends; none where it doesn't run.
    pub master: Option<u8>,
    /// Of the backup, which learns; none where it doesn't run. With 0 it takes the messages of
    /// every sync id.
    pub backup: Option<u8>,
}

impl Settings {
    /// The defaults (this project's profile).
    pub fn initial() -> Settings
        ensures { result ≡ default_settings }
    {
        Settings {
            expire_nodest: 0,
            expire_quiescent: 0,
            sloppy_tcp: 0,
            reuse_mode: 1,
            threshold: 3,
            period: 50,
            established: 900,
            fin_wait: 120,
            udp: 300,
            sync_version: 1,
        }
    }

    /// Changes the named sysctl alone.
    pub fn set(&mut self, setting: &Setting)
        ensures { self.new ≡ with_setting self.old setting.now }
    {
        match *setting {
            Setting::ExpireNodest(value) => self.expire_nodest = value,
            Setting::ExpireQuiescent(value) => self.expire_quiescent = value,
            Setting::SloppyTcp(value) => self.sloppy_tcp = value,
            Setting::ReuseMode(value) => self.reuse_mode = value,
            Setting::SyncThreshold(threshold, period) => {
                self.threshold = threshold;
                self.period = period;
            }
            Setting::SyncVersion(value) => self.sync_version = value,
        }
    }
}
