// The settings of a gauge: the configuration bytes in force. Every rule takes what it needs of the configuration from here.
ghost use Rattle.std.specs.Prelude.{◌≡◌};
ghost use Rattle.configuration.specs.Settings as Spec;

// "The ten configuration bytes are one value".
pub type Configuration = [u8; 10];

#[derive(Clone, Copy, Debug, PartialEq, Eq)]
pub struct Settings {
    pub bytes: Configuration,
}

impl Settings {
    // As opened with the ten bytes.
    pub fn opened(configuration: Configuration) -> Settings
        ensures { result ≡ Spec.opened_settings configuration }
    {
        Settings {
            bytes: configuration,
        }
    }
}
